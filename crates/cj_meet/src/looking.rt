//! The look at a part of a leaf for a nearer approach.
ghost use Rattle.std.specs.Prelude.{◌≡◌, ◌<◌, ◌&&◌, ◌||◌, ◌==◌, nat_le, nat_lt};
ghost use Rattle.cj_hermite.specs.Interpolant.{IsOver};
ghost use Rattle.cj_hermite.specs.Ready.{curve_ready};
ghost use Rattle.cj_meet.specs.Searches.{plain_approach, IfSettled, IfHalved, IsSettled, IsHalved};

use crate::approaches::Approach;
use crate::flatness::{ends, gap_over, is_flat};
use crate::runs::Waiting;
use cj_bezier::least_square;
use cj_hermite::Ready;

/// What becomes of a part, with the nearest approach so far.
pub enum Seen {
    /// Its ticks are done with.
    Settled(Approach),
    /// It is halved, the half to be looked at next first.
    Halved(Approach, Waiting, Waiting),
}

/// Whether no tick of a part that begins at `first`, with squares of `low` or more, is nearer than the best so far.
fn can_be_left_out(best: Approach, low: u128, first: u64) -> bool
    ensures { result ≡ (nat_lt best.square low || ((best.square == low) && nat_le best.tick.micros first)) }
{
    best.square < low || (best.square == low && best.tick.micros <= first)
}

/// Looks at a part of a leaf of two pieces made ready. It is left out where none of its ticks can be nearer than the best
/// so far; else its ends are taken, and it is halved unless it is flat.
pub fn look(a: &Ready, b: &Ready, part: Waiting, best: Approach) -> Seen
    requires first_over { IsOver (curve_ready a.now) part.first.micros part.last.micros }
    requires second_over { IsOver (curve_ready b.now) part.first.micros part.last.micros }
    ensures settled { IfSettled result (IsSettled (curve_ready a.now) (curve_ready b.now) part (plain_approach best)) }
    ensures halved { IfHalved result (IsHalved (curve_ready a.now) (curve_ready b.now) part (plain_approach best)) }
{
    let gap = gap_over(a, b, part);
    let low = least_square(&gap);
    if can_be_left_out(best, low, part.first.micros) {
        return Seen::Settled(best);
    }
    let (first, last) = ends(&gap, part);
    let found = best.nearer(first).nearer(last);
    if is_flat(&gap, low) {
        return Seen::Settled(found);
    }
    let (next, other) = part.halves(last.square < first.square);
    Seen::Halved(found, next, other)
}
