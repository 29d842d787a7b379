//! The closest approach of an encounter.
ghost use Rattle.std.specs.Prelude.{◌≡◌, ◌⊎◌, ◌<◌, Some, length, All, Any};
ghost use Rattle.cj_hermite.specs.Interpolant.{IsOver};
ghost use Rattle.cj_hermite.specs.ObjectsAtTicks.{curve_at};
ghost use Rattle.cj_case.specs.Problems.{plain_problem};
ghost use Rattle.cj_hermite.specs.Ready.{curve_ready};
ghost use Rattle.cj_hermite.specs.Roots.{KeepPieces};
ghost use Rattle.cj_case.specs.Leaves.{plain_leaf, plain_leaves};
ghost use Rattle.cj_meet.specs.Closest.{KeepTheirPieces, ends_within, ends_in, closest_of, plain_closest, IsClosest, IsNearest};
ghost use Rattle.cj_meet.specs.Encounters.{Describes, leaves_in};
ghost use Rattle.cj_meet.specs.Searches.{plain_approach, NoWorse, HasInterpolants};

use crate::approaches::Approach;
use crate::flatness::{ends, gap_over};
use crate::runs::whole_of;
use crate::searching::search;
use cj_case::{Closest, Encounter, Leaf, Problem};
use cj_hermite::{Ready, piece_of, ready};
use cj_interval::{Divisor, isqrt_up};

/// The pieces of both objects over a leaf whose ticks have the same two pieces, made ready.
fn prepare(problem: &Problem, leaf: &Leaf) -> (Ready, Ready)
    requires { KeepPieces (plain_problem problem.now) leaf.now.cell.pair.a leaf.now.cell.pair.b leaf.now.cell.first.micros leaf.now.cell.last.micros }
    ensures first { curve_at (plain_problem problem.now) leaf.now.cell.pair.a leaf.now.cell.first.micros ≡ Some (curve_ready result.0) }
    ensures second { curve_at (plain_problem problem.now) leaf.now.cell.pair.b leaf.now.cell.first.micros ≡ Some (curve_ready result.1) }
    ensures first_over { IsOver (curve_ready result.0) leaf.now.cell.first.micros leaf.now.cell.last.micros }
    ensures second_over { IsOver (curve_ready result.1) leaf.now.cell.first.micros leaf.now.cell.last.micros }
{
    let cell = leaf.cell;
    let a = piece_of(problem, cell.pair.a, cell.first);
    let b = piece_of(problem, cell.pair.b, cell.first);
    let first = ready(&a, &Divisor::new(a.t1.since(a.t0)));
    let second = ready(&b, &first.divisor);
    (first, second)
}

/// The nearer end of a leaf.
fn glance(problem: &Problem, leaf: &Leaf) -> Approach
    requires { KeepPieces (plain_problem problem.now) leaf.now.cell.pair.a leaf.now.cell.pair.b leaf.now.cell.first.micros leaf.now.cell.last.micros }
    ensures { Any (λ p. p ≡ plain_approach result) (ends_within (plain_problem problem.now) (plain_leaf leaf.now)) }
{
    let (a, b) = prepare(problem, leaf);
    let whole = whole_of(leaf);
    let (first, last) = ends(&gap_over(&a, &b, whole), whole);
    first.nearer(last)
}

/// Whether the distance is less at the last tick of a leaf than at its first.
fn comes_nearer(problem: &Problem, leaf: &Leaf) -> bool
    requires { KeepPieces (plain_problem problem.now) leaf.now.cell.pair.a leaf.now.cell.pair.b leaf.now.cell.first.micros leaf.now.cell.last.micros }
{
    let (a, b) = prepare(problem, leaf);
    let whole = whole_of(leaf);
    let (first, last) = ends(&gap_over(&a, &b, whole), whole);
    last.square < first.square
}

/// An end of one of several leaves: the nearest, or one beside it, where the distance first falls and then rises. Only few leaves
/// are looked at, since whatever end it is, the search for the nearest goes on from there.
fn near_end(problem: &Problem, leaves: &[Leaf]) -> Approach
    requires some { 0 < length leaves.now }
    requires pieces { KeepTheirPieces (plain_problem problem.now) (plain_leaves leaves.now) }
    ensures { Any (λ p. p ≡ plain_approach result) (ends_in (plain_problem problem.now) (plain_leaves leaves.now)) }
{
    let mut low = 0;
    let mut high = leaves.len() - 1;
    while low < high {
        let middle = low + (high - low) / 2;
        if comes_nearer(problem, &leaves[middle]) {
            low = middle + 1;
        } else {
            high = middle;
        }
    }
    glance(problem, &leaves[low])
}

/// The nearest of an approach and the ends of a leaf.
fn nearest_of(problem: &Problem, leaf: &Leaf, given: Approach) -> Approach
    requires { KeepPieces (plain_problem problem.now) leaf.now.cell.pair.a leaf.now.cell.pair.b leaf.now.cell.first.micros leaf.now.cell.last.micros }
    ensures no_worse { NoWorse (plain_approach result) (plain_approach given) }
    ensures nearest { All (NoWorse (plain_approach result)) (ends_within (plain_problem problem.now) (plain_leaf leaf.now)) }
    ensures reached { (plain_approach result ≡ plain_approach given) ⊎ Any (λ p. p ≡ plain_approach result) (ends_within (plain_problem problem.now) (plain_leaf leaf.now)) }
    ensures interpolants { HasInterpolants (plain_problem problem.now) (plain_leaf leaf.now) }
{
    let (a, b) = prepare(problem, leaf);
    search(&a, &b, leaf, given)
}

/// The nearest approach of several leaves: an end near it is found first, so that most parts are left out.
fn nearest(problem: &Problem, leaves: &[Leaf]) -> Approach
    requires some { 0 < length leaves.now }
    requires pieces { KeepTheirPieces (plain_problem problem.now) (plain_leaves leaves.now) }
    ensures end { Any (λ p. p ≡ plain_approach result) (ends_in (plain_problem problem.now) (plain_leaves leaves.now)) }
    ensures nearest { All (NoWorse (plain_approach result)) (ends_in (plain_problem problem.now) (plain_leaves leaves.now)) }
    ensures interpolants { All (HasInterpolants (plain_problem problem.now)) (plain_leaves leaves.now) }
{
    let mut best = near_end(problem, leaves);
    for leaf in leaves {
        best = nearest_of(problem, leaf, best);
    }
    best
}

/// The time of closest approach of an encounter of these leaves, and the least whole number of nm that bounds the distance
/// there.
pub fn closest(problem: &Problem, leaves: &[Leaf], encounter: &Encounter) -> Closest
    requires described { Describes (plain_leaves leaves.now) encounter.now }
    requires pieces { KeepTheirPieces (plain_problem problem.now) (leaves_in (plain_leaves leaves.now) encounter.now) }

    ensures value { IsClosest (plain_problem problem.now) (leaves_in (plain_leaves leaves.now) encounter.now) result }
    ensures exact { closest_of (plain_problem problem.now) (leaves_in (plain_leaves leaves.now) encounter.now) ≡ Some (plain_closest result) }

    // The pair is within `high` then, and at no tick of the encounter more than one millimetre nearer.
    ensures law { IsNearest (plain_problem problem.now) encounter.now.pair.a encounter.now.pair.b
        (leaves_in (plain_leaves leaves.now) encounter.now) result.tick.micros result.high }
{
    let ours = &leaves[encounter.leaf as usize..encounter.past as usize];
    let found = nearest(problem, ours);
    Closest {
        tick: found.tick,
        high: isqrt_up(found.square),
    }
}
