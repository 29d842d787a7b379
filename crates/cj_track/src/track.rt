ghost use Rattle.std.specs.Prelude.{◌≡◌, true};
ghost use Rattle.cj_track.specs.Labels.{is_file_name, is_label};

use crate::frame::Frame;
use crate::segments::Segments;
use cj_base::Text;

/// The ephemeris of one object, as one file gives it.
#[derive(Debug, Drop, PartialEq, Eq)]
pub struct Track {
    /// The name of the file.
    pub file: Text,
    /// The name of the object.
    pub name: Text,
    /// The international designator, or another one.
    pub id: Text,
    pub frame: Frame,
    pub segments: Segments,
    pub ghost from: { is_file_name file ≡ true },
    pub ghost named: { is_label name ≡ true },
    pub ghost designated: { is_label id ≡ true },
}
