//! A track without the nodes that no tick of a window needs.
ghost use Rattle.std.specs.Prelude.{◌≡◌, ◌≤◌, All, map, IfOk, OnOk};
ghost use Rattle.cj_track.specs.Nodes.{AreNodes};
ghost use Rattle.cj_track.specs.Segments.{AreSegments};
ghost use Rattle.cj_track.specs.Tracks.{plain_segment, plain_track};
ghost use Rattle.cj_trim.specs.Same.{IsSameWithin};
ghost use Rattle.cj_trim.specs.Trimmed as spec;

use crate::needed_nodes::needed;
use cj_base::{Text, Window};
use cj_track::{Matrices, Nodes, Segment, Segments, Track};
use std::alloc::{AllocError, Global};

/// The part of a segment's useable span that lies in a window, or its first tick alone where none does.
#[tactic(auto, unfolding(crate::specs::Trimmed::has_part))]
fn span_left(segment: &Segment, window: Window) -> Window
    ensures first { result.first.micros ≡ spec.first_left window.first.micros window.last.micros (plain_segment segment.now) }
    ensures last { result.last.micros ≡ spec.last_left window.first.micros window.last.micros (plain_segment segment.now) }
    ensures some { result.first.micros ≤ result.last.micros }
    ensures from { segment.now.first.micros ≤ result.first.micros }
    ensures to { result.last.micros ≤ segment.now.last.micros }
{
    let part = Window {
        first: segment.first.later(window.first),
        last: segment.last.earlier(window.last),
    };
    if part.first.micros <= part.last.micros {
        part
    } else {
        Window {
            first: segment.first,
            last: segment.first,
        }
    }
}

/// A segment with the useable span that is left and the nodes that this needs. The covariances stay.
fn trim_segment(alloc: Global, segment: &Segment, window: Window) -> Result<Segment, AllocError>
    ensures value { IfOk result (λ trimmed. plain_segment trimmed ≡ spec.trimmed_segment window.first.micros window.last.micros (plain_segment segment.now)) }
    ensures nodes { OnOk result (AreNodes segment.now.nodes) }
{
    let span = span_left(segment, window);
    let nodes = Vec::from_slice(alloc, needed(segment.nodes.as_slice(), span))?;
    let matrices = Vec::from_slice(alloc, segment.matrices.as_slice())?;
    Ok(Segment {
        first: span.first,
        last: span.last,
        nodes: Nodes::new(nodes),
        matrices: Matrices::new(matrices),
    })
}

/// The segments, each with what is left of it.
fn trim_segments(
    alloc: Global,
    segments: &[Segment],
    window: Window,
) -> Result<Vec<Segment>, AllocError>
    requires { AreSegments segments.now }
    ensures value { IfOk result (λ trimmed. map plain_segment trimmed.items
        ≡ map (spec.trimmed_segment window.first.micros window.last.micros) (map plain_segment segments.now)) }
    ensures segments { IfOk result (λ trimmed. AreSegments trimmed.items) }
    ensures nodes { OnOk result (All (λ segment. AreNodes segment.nodes) segments.now) }
{
    let mut trimmed = Vec::with_capacity(alloc, segments.len())?;
    for segment in segments {
        trimmed.push(trim_segment(alloc, segment, window)?)?;
    }
    Ok(trimmed)
}

/// A track without the nodes that no tick of a window needs. A segment that has no tick of it keeps its first tick and two nodes.
pub fn trim(alloc: Global, track: &Track, window: Window) -> Result<Track, AllocError>
    ensures value { IfOk result (λ trimmed. plain_track trimmed ≡ spec.trimmed window.first.micros window.last.micros (plain_track track.now)) }

    // At each tick of the window it is between the same two states as the whole track.
    ensures trim_same { OnOk result (IsSameWithin window.first.micros window.last.micros (plain_track track.now)
        (spec.trimmed window.first.micros window.last.micros (plain_track track.now))) }
{
    let segments = trim_segments(alloc, track.segments.as_slice(), window)?;
    Ok(Track {
        file: Text::copy_of(alloc, track.file.as_slice())?,
        name: Text::copy_of(alloc, track.name.as_slice())?,
        id: Text::copy_of(alloc, track.id.as_slice())?,
        frame: track.frame,
        segments: Segments::new(alloc, segments)?,
    })
}
