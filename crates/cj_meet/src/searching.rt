//! The search of a leaf for its nearest approach.
ghost use Rattle.std.specs.Prelude.{◌≡◌, ◌⊎◌, All, Any};
ghost use Rattle.cj_hermite.specs.Interpolant.{IsOver};
ghost use Rattle.cj_hermite.specs.Ready.{curve_ready};
ghost use Rattle.cj_case.specs.Leaves.{plain_leaf};
ghost use Rattle.cj_meet.specs.Closest.{ends_between};
ghost use Rattle.cj_meet.specs.Searches.{plain_approach, NoWorse};

use crate::approaches::Approach;
use crate::looking::{Seen, look};
use crate::runs::whole_of;
use cj_bezier::PLACES;
use cj_case::Leaf;
use cj_hermite::Ready;

/// The nearest of an approach and the ends of a leaf of two pieces made ready. The parts that wait stand from `top` on.
pub fn search(a: &Ready, b: &Ready, leaf: &Leaf, given: Approach) -> Approach
    requires first_over { IsOver (curve_ready a.now) leaf.now.cell.first.micros leaf.now.cell.last.micros }
    requires second_over { IsOver (curve_ready b.now) leaf.now.cell.first.micros leaf.now.cell.last.micros }
    ensures no_worse { NoWorse (plain_approach result) (plain_approach given) }
    ensures nearest { All (NoWorse (plain_approach result))
        (ends_between (curve_ready a.now) (curve_ready b.now) (plain_leaf leaf.now) leaf.now.cell.first.micros leaf.now.cell.last.micros) }
    ensures reached { (plain_approach result ≡ plain_approach given) ⊎ Any (λ p. p ≡ plain_approach result)
        (ends_between (curve_ready a.now) (curve_ready b.now) (plain_leaf leaf.now) leaf.now.cell.first.micros leaf.now.cell.last.micros) }
{
    let mut parts = [whole_of(leaf); PLACES];
    let mut top = PLACES - 1;
    let mut best = given;
    while top < PLACES {
        let part = parts[top];
        match look(a, b, part, best) {
            Seen::Settled(found) => {
                best = found;
                top += 1;
            }
            Seen::Halved(found, next, other) => {
                best = found;
                parts[top] = other;
                top -= 1;
                parts[top] = next;
            }
        }
    }
    best
}
