//! The cells of a certificate against keys, by several workers. A worker takes the next keys, and the cells from where those of these keys
//! begin if all stand in order, of which nothing is proved: what it finds counts where the cells of the keys before end there, and else they
//! are gone over again.
ghost use Rattle.std.specs.Prelude.{◌≡◌, ℕ, ◌*◌, ◌<◌, ◌≤◌, All, IfErr, IfOk, drop, length, map, take};
ghost use Rattle.cj_case.specs.Problems.{plain_problem};
ghost use Rattle.cj_checker.specs.Keys.{plain_key, roots_of_keys};
ghost use Rattle.cj_checker.specs.Tiling.{AreTried, IsTiled, Tiles, keys_at};

use crate::cell_fault::CellFault;
use crate::keys::Key;
use crate::tiled::Tiled;
use crate::tiling::tile_keys;
use cj_case::{Problem, slot_window};
use cj_cert::CellLine;
use cj_threads::{Nobody, map_dealt};
use std::alloc::{AllocError, Global};
use std::thread::Threads;

/// So many keys are taken at once.
const KEYS_AT_ONCE: usize = 4_096;

/// How many times keys are taken. The last time there may be none left.
fn turns(keys: &[Key]) -> usize
    ensures inside { (number : ℕ) → number < result → number * 4_096 ≤ length keys.now }
    ensures all { length keys.now ≤ result * 4_096 }
{
    keys.len() / KEYS_AT_ONCE + 1
}

/// The keys that are taken in a turn.
fn keys_of_turn(keys: &[Key], number: usize) -> &[Key]
    requires { number * 4_096 ≤ length keys.now }
    ensures { result.now ≡ keys_at number keys.now }
{
    let (_, rest) = keys.split_at(number * KEYS_AT_ONCE);
    let (some, _) = rest.split_at(KEYS_AT_ONCE.min(rest.len()));
    some
}

/// The place of the first cell of some keys or behind, if the cells are in order.
fn first_of(problem: &Problem, keys: &[Key], cells: &[CellLine]) -> usize
    requires { All (λ key. key.a < key.b) keys.now }
    ensures { result ≤ length cells.now }
{
    let Some(key) = keys.first() else {
        return 0;
    };
    let Some(ticks) = slot_window(problem.window, key.slot) else {
        return 0;
    };
    let (pair, first) = (key.pair(), ticks.first);
    cells.partition_point(|cell| (cell.pair, cell.first) < (pair, first))
}

/// What is tried in each turn, by as many threads as there are workers: each takes the next one.
fn try_turns<R: Threads + Sync>(
    rt: &R,
    alloc: Global,
    problem: &Problem,
    keys: &[Key],
    cells: &[CellLine],
    workers: u32,
) -> Result<Vec<Tiled>, AllocError>
    requires ordered { All (λ key. key.a < key.b) keys.now }
    requires exist { All (λ key. key.b < length problem.now.tracks) keys.now }
    ensures { IfOk result (λ tries. AreTried (plain_problem problem.now) keys.now cells.now tries.items) }
{
    let attempt = |number: usize| -> Tiled
        requires { (number * 4_096 ≤ length keys.now) × All (λ key. key.a < key.b) keys.now
            × All (λ key. key.b < length problem.now.tracks) keys.now }
        ensures { IsTiled (plain_problem problem.entry.now) (keys_at number keys.entry.now) cells.entry.now result.from result.found }
    {
        let some = keys_of_turn(keys, number);
        let from = first_of(problem, some, cells);
        let found = tile_keys(problem, some, cells, from);
        Tiled { from, found }
    };
    let tries = map_dealt(rt, alloc, turns(keys), workers as usize, &Nobody, &attempt)?;
    Ok(tries)
}

/// What comes of the cells of some keys from a place on, which may be what was tried.
fn found_from(
    problem: &Problem,
    keys: &[Key],
    cells: &[CellLine],
    tried: Tiled,
    at: usize,
) -> Result<usize, CellFault>
    requires ordered { All (λ key. key.a < key.b) keys.now }
    requires exist { All (λ key. key.b < length problem.now.tracks) keys.now }
    requires place { at ≤ length cells.now }
    requires tried { IsTiled (plain_problem problem.now) keys.now cells.now tried.from tried.found }
    ensures { IsTiled (plain_problem problem.now) keys.now cells.now at result }
{
    if tried.from == at {
        tried.found
    } else {
        tile_keys(problem, keys, cells, at)
    }
}

/// The place behind the cells that tile the roots of some keys, the first of which is at a place, by as many threads as there are workers.
pub(crate) fn tile_together<R: Threads + Sync>(
    rt: &R,
    alloc: Global,
    problem: &Problem,
    keys: &[Key],
    cells: &[CellLine],
    at: usize,
    workers: u32,
) -> Result<Result<usize, CellFault>, AllocError>
    requires ordered { All (λ key. key.a < key.b) keys.now }
    requires exist { All (λ key. key.b < length problem.now.tracks) keys.now }
    requires place { at ≤ length cells.now }
    ensures { IfOk result (IsTiled (plain_problem problem.now) keys.now cells.now at) }
{
    let tries = try_turns(rt, alloc, problem, keys, cells, workers)?;
    let mut at = at;
    for number in 0..tries.len() {
        let some = keys_of_turn(keys, number);
        let found = found_from(problem, some, cells, tries[number], at);
        match found {
            Ok(next) => at = next,
            Err(fault) => return Ok(Err(fault)),
        }
    }
    Ok(Ok(at))
}
