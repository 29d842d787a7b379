ghost use Rattle.std.specs.Prelude.{◌≤◌, length};
ghost use Rattle.cj_base.specs.Bounds.{MOST_OBJECTS};
ghost use Rattle.cj_case.specs.CaseLimits.{AreFewNodes};
ghost use Rattle.cj_case.specs.Frames.{HaveOneFrame};

use cj_track::Track;

/// The tracks of the base files, and those of the updated files.
#[derive(Drop)]
pub struct Updated {
    pub base: Vec<Track>,
    pub new: Vec<Track>,
    pub ghost few_base: { length base.items ≤ MOST_OBJECTS },
    pub ghost few_new: { length new.items ≤ MOST_OBJECTS },
    pub ghost base_frame: { HaveOneFrame base.items },
    pub ghost new_frame: { HaveOneFrame new.items },
    pub ghost base_nodes: { AreFewNodes base.items },
    pub ghost new_nodes: { AreFewNodes new.items },
}
