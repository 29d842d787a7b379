ghost use Rattle.std.specs.Prelude.{◌≡◌, IfOk};
ghost use Rattle.std.specs.Cmp.{partial_equiv_from_equiv};
ghost use Rattle.std.specs.Cmp.Lexicographic.{pointwise, lists_equiv};
ghost use Rattle.cj_track.specs.Sameness.{segments_equiv, same_segment};

use crate::segment::Segment;
use std::alloc::{AllocError, Global};
use std::marker::Model;

/// The segments of a track: one or more, whose useable spans share at most one tick with the next.
#[derive(Debug, Drop)]
pub struct Segments {
    items: Vec<Segment>,
    starts: Vec<u32>,
}

impl Model for Segments {
    ghost use Rattle.std.specs.Prelude.{◌≡◌, List};
    ghost use Rattle.cj_track.specs.declared.segment.Segment.{Segment};
    ghost use Rattle.cj_track.specs.Segments.{AreSegments, starts_from};

    ghost Value = { List Segment };

    ghost view = { λ s. s.items.items };

    ghost invariant = { λ s. AreSegments s.items.items × (s.starts.items ≡ starts_from 0 s.items.items) };
}

impl Segments {
    ghost use Rattle.cj_track.specs.Segments.{AreSegments, starts_from};

    pub fn new(alloc: Global, items: Vec<Segment>) -> Result<Self, AllocError>
        requires { AreSegments items.items }
        ensures { IfOk result (λ segments. segments ≡ items.items) }
    {
        let starts = starts_of(alloc, items.as_slice())?;
        Ok(Segments { items, starts })
    }

    pub fn as_slice(&self) -> &[Segment]
        ensures value { result.now ≡ self.now }
        ensures kept { AreSegments result.now }
    {
        &self.items
    }

    /// The number of the first piece of each segment, where the pieces are numbered through all segments from 0.
    pub fn starts(&self) -> &[u32]
        ensures value { result.now ≡ starts_from 0 self.now }
        ensures kept { AreSegments self.now }
    {
        &self.starts
    }
}

ghost use Rattle.cj_track.specs.Segments.{AreSegments, starts_from};

fn starts_of(alloc: Global, segments: &[Segment]) -> Result<Vec<u32>, AllocError>
    requires { AreSegments segments.now }
    ensures { IfOk result (λ starts. starts.items ≡ starts_from 0 segments.now) }
{
    let mut starts = Vec::with_capacity(alloc, segments.len())?;
    let mut start = 0;
    for segment in segments {
        starts.push(start)?;
        start += segment.nodes.as_slice().len() as u32 - 1;
    }
    Ok(starts)
}

impl PartialEq for Segments {
    ghost eq = { pointwise same_segment };

    ghost laws = { partial_equiv_from_equiv (lists_equiv segments_equiv) };

    fn eq(&self, other: &Segments) -> bool {
        self.items.as_slice() == other.items.as_slice()
    }
}

impl Eq for Segments {
    ghost laws = { lists_equiv segments_equiv };
}
