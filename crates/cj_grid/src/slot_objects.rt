ghost use Rattle.std.specs.Prelude.{◌≡◌, ◌^◌, ◌≤◌, length, All};
ghost use Rattle.cj_base.specs.Bounds.{MOST_OBJECTS};
ghost use Rattle.cj_case.specs.CaseLimits.{MAX_SIZE};

use cj_case::AxisBox;

/// The objects among which pairs are looked for in a slot.
#[derive(Clone, Copy)]
pub struct SlotObjects<'s> {
    /// The box of each object, where it has one.
    pub boxes: &'s [Option<AxisBox>],
    /// The size of each in nm.
    pub sizes: &'s [u64],
    /// The threshold of the run in nm, without sizes.
    pub thr: u64,
    pub ghost few: { length boxes.now ≤ MOST_OBJECTS },
    pub ghost sized: { length sizes.now ≡ length boxes.now },
    pub ghost small: { All (λ size. size ≤ MAX_SIZE) sizes.now },
    pub ghost least: { 10 ^ 9 ≤ thr },
    pub ghost most: { thr ≤ 10 ^ 15 },
}
