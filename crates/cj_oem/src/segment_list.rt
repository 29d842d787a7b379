use cj_track::{Segment, Segments};
use std::alloc::{AllocError, Global};
use std::marker::Model;

/// The segments of a file so far, each useable from where the one before ends or later.
#[derive(Drop)]
pub(crate) struct SegmentList {
    items: Vec<Segment>,
}

impl Model for SegmentList {
    ghost use Rattle.std.specs.Prelude.{List};
    ghost use Rattle.cj_track.specs.declared.segment.Segment.{Segment};
    ghost use Rattle.cj_track.specs.Segments.{AreInOrder};

    ghost Value = { List Segment };

    ghost view = { λ s. s.items.items };

    ghost invariant = { λ s. AreInOrder s.items.items };
}

impl SegmentList {
    ghost use Rattle.std.specs.Prelude.{◌≡◌, ◌≤◌, ◌<◌, ◌^◌, ◌++◌, ◌∷◌, [], length, map, IfOk, OnOk};
    ghost use Rattle.cj_track.specs.Segments.{node_count};
    ghost use Rattle.cj_oem.specs.Stages.{end_of};
    ghost use Rattle.cj_track.specs.Tracks.{plain_segment};

    pub(crate) fn new(alloc: Global) -> Self
        ensures { result ≡ [] }
    {
        SegmentList {
            items: Vec::new(alloc),
        }
    }

    /// The tick up to which the segments so far are useable, 0 where there is none.
    pub(crate) fn end(&self) -> u64
        ensures { result ≡ end_of (map plain_segment self.now) }
    {
        match self.items.last() {
            None => 0,
            Some(segment) => segment.last.micros,
        }
    }

    /// Takes a further segment, which is useable from where the last one ends or later.
    pub(crate) fn push(&mut self, segment: Segment) -> Result<(), AllocError>
        requires { end_of (map plain_segment self.old) ≤ segment.first.micros }
        ensures { OnOk result (self.new ≡ self.old ++ segment ∷ []) }
    {
        self.items.push(segment)?;
        Ok(())
    }

    /// All of them, of which there are one or more, with fewer than 2 ^ 32 nodes.
    pub(crate) fn into_segments(self, alloc: Global) -> Result<Segments, AllocError>
        requires some { 1 ≤ length self }
        requires few { node_count self < 2 ^ 32 }
        ensures { IfOk result (λ segments. segments ≡ self) }
    {
        Segments::new(alloc, self.items)
    }
}
