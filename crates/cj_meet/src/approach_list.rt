//! The closest approaches of several encounters: one after another, or by several threads that take the next few encounters each.
ghost use Rattle.std.specs.Prelude.{◌≡◌, map, flat_map, All, IfOk, OnOk};
ghost use Rattle.cj_case.specs.Problems.{plain_problem};
ghost use Rattle.cj_case.specs.Leaves.{plain_leaves};
ghost use Rattle.cj_meet.specs.ApproachLists.{AreClosest};
ghost use Rattle.cj_meet.specs.Closest.{KeepTheirPieces, HasNearest, closest_of, some_closest};
ghost use Rattle.cj_meet.specs.Encounters.{Describes, groups_in};

use crate::approaching::closest;
use cj_case::{Closest, Encounter, Leaf, Problem};
use cj_io::{Gate, Stage};
use cj_threads::{Nobody, map_parts};
use std::alloc::{AllocError, Global};
use std::thread::Threads;

/// The closest approaches of some encounters, one after another. The gate is told of each.
fn search_in_turn<G: Gate>(
    alloc: Global,
    gate: &G,
    problem: &Problem,
    leaves: &[Leaf],
    encounters: &[Encounter],
) -> Result<Vec<Closest>, AllocError>
    requires described { All (Describes (plain_leaves leaves.now)) encounters.now }
    requires pieces { KeepTheirPieces (plain_problem problem.now) (plain_leaves leaves.now) }
    ensures { IfOk result (λ found. AreClosest (plain_problem problem.now) (plain_leaves leaves.now) encounters.now found.items) }
{
    let mut found = Vec::with_capacity(alloc, encounters.len())?;
    for encounter in encounters {
        found.push(closest(problem, leaves, encounter))?;
        gate.advance(Stage::Encounters, 1);
    }
    Ok(found)
}

/// Some lists in one, one list behind another.
fn in_one(alloc: Global, lists: &[Vec<Closest>]) -> Result<Vec<Closest>, AllocError>
    ensures { IfOk result (λ all. all.items ≡ flat_map (λ list. list.items) lists.now) }
{
    let mut all = Vec::new(alloc);
    for list in lists {
        all.extend_from_slice(list)?;
    }
    Ok(all)
}

/// So many encounters a thread takes at once, or more where there would be more portions than `PORTIONS`.
const ENCOUNTERS_A_PORTION: usize = 64;

/// About so many portions there are at most.
const PORTIONS: usize = 1000;

/// The closest approaches of some encounters, by as many threads as there are workers: each takes the next portion of them.
fn search_by_threads<R: Threads + Sync, G: Gate + Sync>(
    rt: &R,
    alloc: Global,
    gate: &G,
    problem: &Problem,
    leaves: &[Leaf],
    encounters: &[Encounter],
    workers: usize,
) -> Result<Vec<Closest>, AllocError>
    requires described { All (Describes (plain_leaves leaves.now)) encounters.now }
    requires pieces { KeepTheirPieces (plain_problem problem.now) (plain_leaves leaves.now) }
    ensures { IfOk result (λ found. AreClosest (plain_problem problem.now) (plain_leaves leaves.now) encounters.now found.items) }
{
    let size = ENCOUNTERS_A_PORTION.max(encounters.len() / PORTIONS);
    let search = |portion: &[Encounter]| -> Result<Vec<Closest>, AllocError>
        requires { All (Describes (plain_leaves leaves.now)) portion.now × KeepTheirPieces (plain_problem problem.now) (plain_leaves leaves.now) }
        ensures { IfOk result (λ found. AreClosest (plain_problem problem.entry.now) (plain_leaves leaves.entry.now) portion.now found.items) }
    { search_in_turn(alloc, gate, problem, leaves, portion) };
    let found = map_parts(rt, alloc, encounters, size, workers, &Nobody, &search)?;
    in_one(alloc, &found)
}

/// The closest approaches of these encounters of these leaves, in order, searched by so many workers. The only error is want of memory.
///
/// No clause names the workers: what is found is the same, however many there are.
pub fn closest_approaches<R: Threads + Sync, G: Gate + Sync>(
    rt: &R,
    alloc: Global,
    gate: &G,
    problem: &Problem,
    leaves: &[Leaf],
    encounters: &[Encounter],
    workers: u32,
) -> Result<Vec<Closest>, AllocError>
    requires described { All (Describes (plain_leaves leaves.now)) encounters.now }
    requires pieces { KeepTheirPieces (plain_problem problem.now) (plain_leaves leaves.now) }

    ensures exact { IfOk result (λ found. map some_closest found.items
        ≡ map (closest_of (plain_problem problem.now)) (groups_in (plain_leaves leaves.now) encounters.now)) }

    // Each says what `closest` says of the distance.
    ensures law { OnOk result (All (HasNearest (plain_problem problem.now)) (groups_in (plain_leaves leaves.now) encounters.now)) }
{
    gate.begin(Stage::Encounters, encounters.len() as u64);
    if workers < 2 || encounters.len() <= ENCOUNTERS_A_PORTION {
        return search_in_turn(alloc, gate, problem, leaves, encounters);
    }
    search_by_threads(
        rt,
        alloc,
        gate,
        problem,
        leaves,
        encounters,
        workers as usize,
    )
}
