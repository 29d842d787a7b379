//! Steps from a node of a segment to a later one.
ghost use Rattle.std.specs.Prelude.{◌≡◌, ◌+◌, ◌^◌, ◌<◌, ◌≤◌, ◌∷◌, length, map};
ghost use Rattle.cj_track.specs.Limits.{MAX_STEP};
ghost use Rattle.cj_track.specs.Nodes.{AreSteps};
ghost use Rattle.cj_track.specs.Tracks.{plain_node};
ghost use Rattle.cj_track.specs.Useable.{last_tick};
ghost use Rattle.cj_hermite.specs.Interpolant.{IsOver, curve_of};
ghost use Rattle.cj_hermite.specs.Ready.{curve_ready};
ghost use Rattle.cj_thin.specs.Thinned as spec;

use crate::near::are_near;
use cj_base::HOUR;
use cj_hermite::{Piece, Ready, ready};
use cj_interval::Divisor;
use cj_track::Node;

/// How long the pieces of most ephemerides are: a minute of ticks.
const USUAL_SPAN: u64 = 60_000_000;

/// Over how many pieces a step may go.
const MAX_PIECES: usize = 64;

/// The piece from a node straight to a later one, at most an hour on.
fn between(from: Node, to: Node) -> Piece
    requires rises { from.at.micros < to.at.micros }
    requires short { to.at.micros ≤ from.at.micros + MAX_STEP }
    ensures { curve_of result ≡ spec.curve_between (plain_node from) (plain_node to) }
{
    Piece {
        t0: from.at,
        t1: to.at,
        p0: from.p,
        v0: from.v,
        p1: to.p,
        v1: to.v,
    }
}

/// Whether a step stands for each piece from a node to the last of those behind it.
fn stands_for(step: &Ready, from: Node, path: &[Node], e: u64) -> bool
    requires steps { AreSteps (from ∷ path.now) }
    requires over { IsOver (curve_ready step.now) from.at.micros (last_tick from.at.micros path.now) }
    requires least { 10 ^ 9 ≤ e }
    requires most { e ≤ 10 ^ 12 }
    ensures { result ≡ spec.all_near e (curve_ready step.now) (plain_node from ∷ map plain_node path.now) }
{
    let mut like = step.divisor;
    let mut last = from;
    for next in path {
        let piece = ready(&between(last, *next), &like);
        if !are_near(&piece, step, e, last.at, next.at) {
            return false;
        }
        like = piece.divisor;
        last = *next;
    }
    true
}

/// Whether a step from a node to the last of those behind it is allowed.
#[tactic(auto, unfolding(crate::specs::Thinned::is_allowed))]
fn is_allowed(from: Node, path: &[Node], e: u64) -> bool
    requires some { 1 ≤ length path.now }
    requires steps { AreSteps (from ∷ path.now) }
    requires least { 10 ^ 9 ≤ e }
    requires most { e ≤ 10 ^ 12 }
    ensures { result ≡ spec.is_allowed e (plain_node from) (map plain_node path.now) }
{
    if path.len() > MAX_PIECES {
        return false;
    }
    let to = path[path.len() - 1];
    if to.at.since(from.at) > HOUR {
        return false;
    }
    let step = ready(&between(from, to), &Divisor::new(USUAL_SPAN));
    stands_for(&step, from, path, e)
}

/// How many of the nodes behind one the step from it leaves out: the most such that it and all shorter steps are allowed.
pub(crate) fn left_out(from: Node, behind: &[Node], e: u64) -> usize
    requires steps { AreSteps (from ∷ behind.now) }
    requires least { 10 ^ 9 ≤ e }
    requires most { e ≤ 10 ^ 12 }
    ensures value { result ≡ spec.left_out e (plain_node from) (map plain_node behind.now) }
    ensures within { result ≤ length behind.now }
{
    let mut count = 0;
    while count + 1 < behind.len() {
        if !is_allowed(from, &behind[..count + 2], e) {
            return count;
        }
        count += 1;
    }
    count
}
