//! A track with fewer nodes.
ghost use Rattle.std.specs.Prelude.{◌≡◌, ◌^◌, ◌≤◌, All, map, IfOk, OnOk};
ghost use Rattle.cj_track.specs.Nodes.{AreNodes};
ghost use Rattle.cj_track.specs.Segments.{AreSegments};
ghost use Rattle.cj_track.specs.Tracks.{plain_segment, plain_track};
ghost use Rattle.cj_thin.specs.Thinned.{thinned, thinned_segment};
ghost use Rattle.cj_thin.specs.Within.{IsThinnerWithin};

use crate::keeping::kept;
use cj_base::Text;
use cj_track::{Matrices, Nodes, Segment, Segments, Track};
use std::alloc::{AllocError, Global};

/// A segment with the nodes that are kept, and else as it is.
fn thin_segment(alloc: Global, segment: &Segment, e: u64) -> Result<Segment, AllocError>
    requires least { 10 ^ 9 ≤ e }
    requires most { e ≤ 10 ^ 12 }
    ensures value { IfOk result (λ thin. plain_segment thin ≡ thinned_segment e (plain_segment segment.now)) }
    ensures nodes { OnOk result (AreNodes segment.now.nodes) }
{
    let nodes = kept(alloc, segment.nodes.as_slice(), e)?;
    let matrices = Vec::from_slice(alloc, segment.matrices.as_slice())?;
    Ok(Segment {
        first: segment.first,
        last: segment.last,
        nodes: Nodes::new(nodes),
        matrices: Matrices::new(matrices),
    })
}

/// The segments with the nodes that are kept.
fn thin_segments(alloc: Global, segments: &[Segment], e: u64) -> Result<Vec<Segment>, AllocError>
    requires segments { AreSegments segments.now }
    requires least { 10 ^ 9 ≤ e }
    requires most { e ≤ 10 ^ 12 }
    ensures value { IfOk result (λ thin. map plain_segment thin.items ≡ map (thinned_segment e) (map plain_segment segments.now)) }
    ensures segments { IfOk result (λ thin. AreSegments thin.items) }
    ensures nodes { OnOk result (All (λ segment. AreNodes segment.nodes) segments.now) }
{
    let mut thin = Vec::with_capacity(alloc, segments.len())?;
    for segment in segments {
        thin.push(thin_segment(alloc, segment, e)?)?;
    }
    Ok(thin)
}

/// A track with fewer nodes, at each of whose ticks the object is within `e` nm of where it was: of each segment the first node is
/// kept, and after each the one to which the longest step goes that stands for what it leaves out, as all shorter ones do.
pub fn thin(alloc: Global, track: &Track, e: u64) -> Result<Track, AllocError>
    requires least { 10 ^ 9 ≤ e }
    requires most { e ≤ 10 ^ 12 }
    ensures value { IfOk result (λ thin. plain_track thin ≡ thinned e (plain_track track.now)) }

    // Both have a state at the same ticks, and are within e there.
    ensures law { OnOk result (IsThinnerWithin e (plain_track track.now) (thinned e (plain_track track.now))) }
{
    let segments = thin_segments(alloc, track.segments.as_slice(), e)?;
    Ok(Track {
        file: Text::copy_of(alloc, track.file.as_slice())?,
        name: Text::copy_of(alloc, track.name.as_slice())?,
        id: Text::copy_of(alloc, track.id.as_slice())?,
        frame: track.frame,
        segments: Segments::new(alloc, segments)?,
    })
}
