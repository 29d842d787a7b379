//! Searches over the segments and the nodes of a track.
ghost use Rattle.std.specs.Prelude.{ℕ, ◌+◌, ◌<◌, ◌≤◌, ◌↔◌, length, IsTrue, MatchOption, slice_index};
ghost use Rattle.std.specs.List.Sorted.{IsNonDecreasing};
ghost use Rattle.cj_track.specs.declared.node.Node.{Node};
ghost use Rattle.cj_track.specs.Nodes.{AreNodes};
ghost use Rattle.cj_track.specs.Segments.{AreInOrder};
ghost use Rattle.cj_track.specs.Useable.{LiesWithin};
ghost use Rattle.cj_hermite.specs.Searches.{IsLastBegun, AllLater, AreReached, HasBegun, IsFromNode, IsLastStarted, IsReached};

use cj_base::Tick;
use cj_track::{Node, Segment};

/// The last segment that begins at the tick or before.
pub fn last_begun(segments: &[Segment], at: Tick) -> Option<usize>
    requires { AreInOrder segments.now }
    ensures { MatchOption result (AllLater at.micros segments.now) (IsLastBegun at.micros segments.now) }
{
    segments
        .partition_point(|segment| segment.first.micros <= at.micros)
        .checked_sub(1)
}

/// The same. The segment with this number and the next are looked at first.
pub fn last_begun_from(segments: &[Segment], at: Tick, hint: u32) -> Option<usize>
    requires { AreInOrder segments.now }
    ensures { MatchOption result (AllLater at.micros segments.now) (IsLastBegun at.micros segments.now) }
{
    let hint = hint as usize;
    if is_last_begun(segments, at, hint) {
        return Some(hint);
    }
    if is_last_begun(segments, at, hint + 1) {
        return Some(hint + 1);
    }
    last_begun(segments, at)
}

/// Whether this is the last segment that begins at the tick or before.
fn is_last_begun(segments: &[Segment], at: Tick, number: usize) -> bool
    ensures { IsTrue result → IsLastBegun at.micros segments.now number }
{
    has_begun(segments, at, number) && !has_begun(segments, at, number + 1)
}

/// Whether there is a segment with this number, and it begins at the tick or before.
fn has_begun(segments: &[Segment], at: Tick, number: usize) -> bool
    ensures { IsTrue result ↔ HasBegun at.micros segments.now number }
{
    number < segments.len() && segments[number].first.micros <= at.micros
}

/// The node from which the piece at the tick begins.
pub fn last_reached(nodes: &[Node], at: Tick) -> usize
    requires nodes { AreNodes nodes.now }
    requires within { LiesWithin at.micros at.micros nodes.now }
    ensures exists { result + 1 < length nodes.now }
    ensures from { (d : Node) → IsFromNode at.micros nodes.now result d }
{
    let near = evenly(nodes, at);
    if is_last_reached(nodes, at, near) {
        return near;
    }
    (reached(nodes, at) - 1).min(nodes.len() - 2)
}

/// The node from which the piece at the tick begins if all pieces are of one length, and else maybe another.
fn evenly(nodes: &[Node], at: Tick) -> usize
    requires { AreNodes nodes.now }
{
    let pieces = nodes.len() - 1;
    let first = nodes[0].at.micros;
    let whole = nodes[pieces].at.micros.wrapping_sub(first);
    let passed = at.micros.wrapping_sub(first).wrapping_mul(pieces as u64);
    passed.checked_div(whole).unwrap_or(0) as usize
}

/// The same. The node with this number and the next are looked at first.
pub fn last_reached_from(nodes: &[Node], at: Tick, hint: u32) -> usize
    requires nodes { AreNodes nodes.now }
    requires within { LiesWithin at.micros at.micros nodes.now }
    ensures exists { result + 1 < length nodes.now }
    ensures from { (d : Node) → IsFromNode at.micros nodes.now result d }
{
    let hint = hint as usize;
    if is_last_reached(nodes, at, hint) {
        return hint;
    }
    if is_last_reached(nodes, at, hint + 1) {
        return hint + 1;
    }
    last_reached(nodes, at)
}

/// Whether this is the node from which the piece at the tick begins.
fn is_last_reached(nodes: &[Node], at: Tick, number: usize) -> bool
    requires nodes { AreNodes nodes.now }
    requires within { LiesWithin at.micros at.micros nodes.now }
    ensures exists { IsTrue result → number + 1 < length nodes.now }
    ensures from { IsTrue result → (d : Node) → IsFromNode at.micros nodes.now number d }
{
    is_reached(nodes, at, number) && !is_reached(nodes, at, number + 1)
}

/// Whether there is a node with this number, not the last, and it stands at the tick or before.
fn is_reached(nodes: &[Node], at: Tick, number: usize) -> bool
    requires { AreNodes nodes.now }
    ensures { IsTrue result ↔ IsReached at.micros nodes.now number }
{
    number < nodes.len() - 1 && nodes[number].at.micros <= at.micros
}

/// How many nodes stand at the tick or before.
fn reached(nodes: &[Node], at: Tick) -> usize
    requires { AreNodes nodes.now }
    ensures bound { result ≤ length nodes.now }
    ensures reached { AreReached at.micros result nodes.now }
{
    nodes.partition_point(|node| node.at.micros <= at.micros)
}

/// The last segment whose first piece has this number or a lower one.
pub fn last_started(starts: &[u32], index: u32) -> usize
    requires some { 0 < length starts.now }
    requires first { slice_index starts.now 0 ≤ index }
    requires rising { IsNonDecreasing starts.now }
    ensures { IsLastStarted index starts.now result }
{
    started(starts, index) - 1
}

fn started(starts: &[u32], index: u32) -> usize
    requires { IsNonDecreasing starts.now }
    ensures bound { result ≤ length starts.now }
    ensures started { (j : ℕ) → j < result → slice_index starts.now j ≤ index }
    ensures rest { (j : ℕ) → result ≤ j → j < length starts.now → index < slice_index starts.now j }
{
    starts.partition_point(|start| *start <= index)
}
