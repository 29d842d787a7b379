//! The nodes of a segment that the ticks of a span need.
ghost use Rattle.std.specs.Prelude.{◌≡◌, ◌≤◌, ◌<◌, ◌+◌, ℕ, map, length, slice_index_or};
ghost use Rattle.cj_track.specs.Nodes.{AreNodes};
ghost use Rattle.cj_track.specs.Tracks.{plain_node};
ghost use Rattle.cj_track.specs.Useable.{LiesWithin};
ghost use Rattle.cj_hermite.specs.Searches.{AreReached};
ghost use Rattle.cj_trim.specs.Trimmed as spec;

use cj_base::{Tick, Window};
use cj_track::Node;

/// The nodes that the ticks of a span need: from the last one that is not after its first tick and that others follow to the first one
/// after its last tick, or to the last of all.
pub(crate) fn needed<'n>(nodes: &'n [Node], span: Window) -> &'n [Node]
    requires nodes { AreNodes nodes.now }
    requires some { span.first.micros ≤ span.last.micros }
    requires within { LiesWithin span.first.micros span.last.micros nodes.now }
    ensures value { map plain_node result.now ≡ spec.needed span.first.micros span.last.micros (map plain_node nodes.now) }
    ensures nodes { AreNodes result.now }
    ensures within { LiesWithin span.first.micros span.last.micros result.now }
    ensures fewer { length result.now ≤ length nodes.now }
{
    let first = reached(nodes, span.first).min(nodes.len() - 1) - 1;
    let past = (reached(nodes, span.last) + 1).min(nodes.len());
    let behind = &nodes[first..];
    &behind[..past - first]
}

/// How many nodes are not after a tick.
fn reached(nodes: &[Node], at: Tick) -> usize
    requires { AreNodes nodes.now }
    ensures bound { result ≤ length nodes.now }
    ensures reached { AreReached at.micros result nodes.now }
{
    nodes.partition_point(|node| node.at.micros <= at.micros)
}
