ghost use Rattle.std.specs.Prelude.{◌≡◌, length};

use cj_case::AxisBox;

/// The boxes of one object, slot by slot.
#[derive(Drop)]
pub(crate) struct ObjectBoxes<'a> {
    pub row: &'a [Option<AxisBox>],
    pub object: u32,
    pub slots: u32,
    pub ghost whole: { length row.now ≡ slots },
}
