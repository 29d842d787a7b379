ghost use Rattle.std.specs.Prelude.{◌≡◌, true};
ghost use Rattle.cj_track.specs.Labels.{is_label};

use cj_base::Text;
use cj_track::Frame;

/// The object of a file.
#[derive(Drop)]
pub(crate) struct Object {
    pub(crate) name: Text,
    /// The designator.
    pub(crate) id: Text,
    pub(crate) frame: Frame,
    pub(crate) ghost named: { is_label name ≡ true },
    pub(crate) ghost designated: { is_label id ≡ true },
}
