//! Copies of tracks.
ghost use Rattle.std.specs.Prelude.{◌≡◌, length, map, IfOk};
ghost use Rattle.cj_track.specs.Segments.{AreSegments};
ghost use Rattle.cj_track.specs.Tracks.{plain_segment, plain_track};

use cj_base::Text;
use cj_track::{Matrices, Nodes, Segment, Segments, Track};
use std::alloc::{AllocError, Global};

/// Copies of these tracks.
pub fn copies_of(alloc: Global, tracks: &[Track]) -> Result<Vec<Track>, AllocError>
    ensures value { IfOk result (λ copies. map plain_track copies.items ≡ map plain_track tracks.now) }
    ensures many { IfOk result (λ copies. length copies.items ≡ length tracks.now) }
{
    let mut copies = Vec::with_capacity(alloc, tracks.len())?;
    for track in tracks {
        copies.push(copy_of(alloc, track)?)?;
    }
    Ok(copies)
}

fn copy_of(alloc: Global, track: &Track) -> Result<Track, AllocError>
    ensures { IfOk result (λ copy. plain_track copy ≡ plain_track track.now) }
{
    let segments = copies_of_segments(alloc, track.segments.as_slice())?;
    Ok(Track {
        file: Text::copy_of(alloc, track.file.as_slice())?,
        name: Text::copy_of(alloc, track.name.as_slice())?,
        id: Text::copy_of(alloc, track.id.as_slice())?,
        frame: track.frame,
        segments: Segments::new(alloc, segments)?,
    })
}

fn copies_of_segments(alloc: Global, segments: &[Segment]) -> Result<Vec<Segment>, AllocError>
    requires { AreSegments segments.now }
    ensures segments { IfOk result (λ copies. AreSegments copies.items) }
    ensures value { IfOk result (λ copies. map plain_segment copies.items ≡ map plain_segment segments.now) }
{
    let mut copies = Vec::with_capacity(alloc, segments.len())?;
    for segment in segments {
        copies.push(copy_of_segment(alloc, segment)?)?;
    }
    Ok(copies)
}

fn copy_of_segment(alloc: Global, segment: &Segment) -> Result<Segment, AllocError>
    ensures { IfOk result (λ copy. plain_segment copy ≡ plain_segment segment.now) }
{
    let nodes = Vec::from_slice(alloc, segment.nodes.as_slice())?;
    let matrices = Vec::from_slice(alloc, segment.matrices.as_slice())?;
    Ok(Segment {
        first: segment.first,
        last: segment.last,
        nodes: Nodes::new(nodes),
        matrices: Matrices::new(matrices),
    })
}
