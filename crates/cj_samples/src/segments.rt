//! Segments of two nodes.
ghost use Rattle.std.specs.Prelude.{◌≡◌, ◌+◌, ◌*◌, ◌<◌, ◌≤◌, length, IfOk};
ghost use Rattle.cj_track.specs.Tracks.{plain_node, plain_segment};
ghost use Rattle.cj_samples.specs.Moments.{tick_of, IsPlace, IsRate};
ghost use Rattle.cj_samples.specs.Samples as samples;

use crate::ticks::second;
use cj_track::{Matrices, Node, Nodes, Segment, Vec3};
use std::alloc::{AllocError, Global};

/// No rate.
pub const REST: Vec3 = Vec3 { x: 0, y: 0, z: 0 };

/// A place 7,000 km from the Earth's center.
pub const AT_7000: Vec3 = Vec3 {
    x: 7_000_000_000_000_000,
    y: 0,
    z: 0,
};

/// One 5 km further out.
pub const AT_7005: Vec3 = Vec3 {
    x: 7_005_000_000_000_000,
    y: 0,
    z: 0,
};

/// One 100 km further out.
pub const AT_7100: Vec3 = Vec3 {
    x: 7_100_000_000_000_000,
    y: 0,
    z: 0,
};

/// A node so many seconds after the start of 2025, at a place in nm with a rate in nm/s.
pub fn node(at: u8, p: Vec3, v: Vec3) -> Node
    requires place { IsPlace p }
    requires rate { IsRate v }
    ensures at { result.at.micros ≡ tick_of (at * 1000000) }
    ensures value { plain_node result ≡ samples.state at p v }
{
    Node {
        at: second(at),
        p,
        v,
    }
}

/// A segment of two nodes at most an hour apart that is useable from one second to another.
#[tactic(auto, using(crate::proofs::LeapLemmas::no_leap))]
pub fn useable(
    alloc: Global,
    first: u8,
    last: u8,
    from: Node,
    to: Node,
) -> Result<Segment, AllocError>
    requires some { first ≤ last }
    requires begins { tick_of 0 ≤ from.at.micros }
    requires rises { from.at.micros < to.at.micros }
    requires short { to.at.micros ≤ from.at.micros + 3600000000 }
    requires after { from.at.micros ≤ tick_of (first * 1000000) }
    requires before { tick_of (last * 1000000) ≤ to.at.micros }
    ensures first { IfOk result (λ s. s.first.micros ≡ tick_of (first * 1000000)) }
    ensures last { IfOk result (λ s. s.last.micros ≡ tick_of (last * 1000000)) }
    ensures nodes { IfOk result (λ s. length s.nodes ≡ 2) }
    ensures value { IfOk result (λ s. plain_segment s ≡ samples.between first last (plain_node from) (plain_node to)) }
{
    Ok(Segment {
        first: second(first),
        last: second(last),
        nodes: Nodes::new(vec![in alloc; from, to]?),
        matrices: Matrices::new(Vec::new(alloc)),
    })
}

/// A segment from one second to another, at these places with one rate.
pub fn moving(
    alloc: Global,
    first: u8,
    last: u8,
    from: Vec3,
    to: Vec3,
    v: Vec3,
) -> Result<Segment, AllocError>
    requires some { first < last }
    requires from { IsPlace from }
    requires to { IsPlace to }
    requires rate { IsRate v }
    ensures first { IfOk result (λ s. s.first.micros ≡ tick_of (first * 1000000)) }
    ensures last { IfOk result (λ s. s.last.micros ≡ tick_of (last * 1000000)) }
    ensures nodes { IfOk result (λ s. length s.nodes ≡ 2) }
    ensures value { IfOk result (λ s. plain_segment s ≡ samples.between first last (samples.state first from v) (samples.state last to v)) }
{
    useable(alloc, first, last, node(first, from, v), node(last, to, v))
}

/// A segment at rest from one second to another.
pub fn rest(alloc: Global, first: u8, last: u8, p: Vec3) -> Result<Segment, AllocError>
    requires some { first < last }
    requires place { IsPlace p }
    ensures first { IfOk result (λ s. s.first.micros ≡ tick_of (first * 1000000)) }
    ensures last { IfOk result (λ s. s.last.micros ≡ tick_of (last * 1000000)) }
    ensures nodes { IfOk result (λ s. length s.nodes ≡ 2) }
    ensures value { IfOk result (λ s. plain_segment s ≡ samples.between first last (samples.at_rest first p) (samples.at_rest last p)) }
{
    moving(alloc, first, last, p, p, REST)
}
