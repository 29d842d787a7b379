//! Whether the nodes of a segment may be closed.
ghost use Rattle.std.specs.Prelude.{◌≡◌, ◌≤◌, true, length, map, IfOk};
ghost use Rattle.cj_kvn.specs.Faults.{Tells};
ghost use Rattle.cj_oem.specs.Readers.{body_of, open_segment_of};
ghost use Rattle.cj_oem.specs.Stages as spec;
ghost use Rattle.cj_track.specs.Tracks.{plain_segment, plain_node};
ghost use Rattle.cj_track.specs.Useable.{LiesWithin};

use crate::body::{Body, OpenSegment};
use cj_base::Tick;
use cj_formats::OemCause;
use cj_track::Node;

/// The segments so far may take a segment with these nodes.
#[tactic(auto, unfolding(crate::specs::Stages::close_nodes))]
pub(crate) fn check_nodes(body: &Body, open_segment: &OpenSegment) -> Result<(), OemCause>
    ensures exact { Tells (λ _. tt) result (spec.close_nodes (body_of body.now) (open_segment_of open_segment.now)) }
    ensures enough { IfOk result (λ _. 2 ≤ length open_segment.now.nodes) }
    ensures some { IfOk result (λ _. open_segment.now.metadata.first.micros ≤ open_segment.now.metadata.last.micros) }
    ensures within { IfOk result (λ _. LiesWithin open_segment.now.metadata.first.micros open_segment.now.metadata.last.micros open_segment.now.nodes) }
    ensures later { IfOk result (λ _. spec.end_of (map plain_segment body.now.segments) ≤ open_segment.now.metadata.first.micros) }
{
    let nodes = open_segment.nodes.as_slice();
    if nodes.len() < 2 {
        return Err(OemCause::TooFewNodes);
    }
    let metadata = &open_segment.metadata;
    if !is_useable(metadata.first, metadata.last, nodes) {
        return Err(OemCause::UseableSpan);
    }
    if metadata.first.micros < body.segments.end() {
        return Err(OemCause::SegmentsOverlap);
    }
    Ok(())
}

/// Whether the span is not empty, and lies from the first node to the last.
fn is_useable(first: Tick, last: Tick, nodes: &[Node]) -> bool
    ensures exact { result ≡ spec.is_useable first.micros last.micros (spec.first_state (map plain_node nodes.now)) (spec.last_state (map plain_node nodes.now)) }
    ensures some { result ≡ true → first.micros ≤ last.micros }
    ensures within { result ≡ true → LiesWithin first.micros last.micros nodes.now }
{
    match (nodes.first(), nodes.last()) {
        (Some(from), Some(to)) => {
            first.micros <= last.micros
                && from.at.micros <= first.micros
                && last.micros <= to.at.micros
        }
        _ => false,
    }
}
