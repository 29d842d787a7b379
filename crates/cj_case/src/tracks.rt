ghost use Rattle.std.specs.Prelude.{◌≡◌, ◌≤◌, length};
ghost use Rattle.cj_base.specs.Bounds.{MOST_OBJECTS};
ghost use Rattle.cj_case.specs.CaseLimits.{AreFewNodes};
ghost use Rattle.cj_case.specs.Frames.{HaveOneFrame};

use cj_track::Track;
use std::marker::Model;

/// The tracks of a run, of one frame: at most 65,535, with at most 64,000,000 nodes in all. Objects are numbered from 0 by their place.
#[derive(Debug, Drop)]
pub struct Tracks {
    items: Vec<Track>,
}

impl Model for Tracks {
    ghost use Rattle.std.specs.Prelude.{List, length, ◌≤◌};
    ghost use Rattle.cj_base.specs.Bounds.{MOST_OBJECTS};
    ghost use Rattle.cj_track.specs.declared.track.Track.{Track};
    ghost use Rattle.cj_case.specs.CaseLimits.{AreFewNodes};
    ghost use Rattle.cj_case.specs.Frames.{HaveOneFrame};

    ghost Value = { List Track };

    ghost view = { λ t. t.items.items };

    ghost invariant = { λ t. (length t.items.items ≤ MOST_OBJECTS) × HaveOneFrame t.items.items × AreFewNodes t.items.items };
}

impl Tracks {
    pub fn new(items: Vec<Track>) -> Self
        requires few { length items.items ≤ MOST_OBJECTS }
        requires frame { HaveOneFrame items.items }
        requires nodes { AreFewNodes items.items }
        ensures { result ≡ items.items }
    {
        Tracks { items }
    }

    pub fn as_slice(&self) -> &[Track]
        ensures value { result.now ≡ self.now }
        ensures few { length self.now ≤ MOST_OBJECTS }
        ensures frame { HaveOneFrame self.now }
        ensures nodes { AreFewNodes self.now }
    {
        &self.items
    }
}
