//! The roots of a slot.
ghost use Rattle.std.specs.Prelude.{◌≡◌, ◌+◌, ◌<◌, ◌≤◌, map, length, take, drop, vec_len, [], ◌∷◌, All, OnOk, OnErr, IsErrOf};
ghost use Rattle.cj_track.specs.Tracks.{plain_track};
ghost use Rattle.cj_case.specs.Problems.{plain_problem};
ghost use Rattle.cj_hermite.specs.CommonRuns.{runs_between, run_of, both_numbers};
ghost use Rattle.cj_case.specs.Pairs.{objects_of};
ghost use Rattle.cj_hermite.specs.Roots.{KeepPieces, root_of_run, roots_in_slot};
ghost use Rattle.cj_cells.specs.Cells.{added_roots};

use crate::refine_error::RefineError;
use cj_base::Window;
use cj_case::{Cell, Pair, Problem, slot_window};
use cj_hermite::{Hints, PairHint, next_common};
use cj_track::Track;
use std::alloc::Global;

/// Appends the root of a pair at these ticks.
fn append(pair: Pair, ticks: Window, limit: u64, roots: &mut Vec<Cell>) -> Result<(), RefineError>
    requires some { ticks.first.micros ≤ ticks.last.micros }
    requires room { vec_len roots.old ≤ limit }
    ensures ok { OnOk result (added_roots roots.old.items roots.new.items ≡ root_of_run pair.a pair.b (run_of ticks) ∷ []) }
    ensures within { OnOk result (vec_len roots.new ≤ limit) }
    ensures too_many { IsErrOf result RefineError.TooMany → limit < vec_len roots.old + 1 }
    ensures err { OnErr result (roots.new.items ≡ roots.old.items) }
    ensures kept { take (vec_len roots.old) roots.new.items ≡ roots.old.items }
    ensures root { All (λ cell. cell.root ≡ 0) (drop (vec_len roots.old) roots.new.items) }
{
    if roots.len() as u64 >= limit {
        return Err(RefineError::TooMany);
    }
    roots.push(Cell {
        pair,
        root: 0,
        first: ticks.first,
        last: ticks.last,
    })?;
    Ok(())
}

/// Appends the roots of two tracks in a slot.
fn walk(
    pair: Pair,
    a: &Track,
    b: &Track,
    slot: Window,
    limit: u64,
    hint: &mut PairHint,
    roots: &mut Vec<Cell>,
) -> Result<(), RefineError>
    requires some { slot.first.micros ≤ slot.last.micros }
    requires room { vec_len roots.old ≤ limit }
    ensures ok { OnOk result (added_roots roots.old.items roots.new.items
        ≡ map (root_of_run pair.a pair.b) (runs_between (both_numbers (plain_track a.now) (plain_track b.now)) slot.first.micros slot.last.micros)) }
    ensures within { OnOk result (vec_len roots.new ≤ limit) }
    ensures too_many { IsErrOf result RefineError.TooMany
        → limit < vec_len roots.old + length (map (root_of_run pair.a pair.b) (runs_between (both_numbers (plain_track a.now) (plain_track b.now)) slot.first.micros slot.last.micros)) }
    ensures err { OnErr result (added_roots roots.old.items roots.new.items
        ≡ take (length (added_roots roots.old.items roots.new.items))
        (map (root_of_run pair.a pair.b) (runs_between (both_numbers (plain_track a.now) (plain_track b.now)) slot.first.micros slot.last.micros))) }
    ensures kept { take (vec_len roots.old) roots.new.items ≡ roots.old.items }
    ensures root { All (λ cell. cell.root ≡ 0) (drop (vec_len roots.old) roots.new.items) }
{
    let mut from = slot.first;
    while let Some(ticks) = next_common(a, b, from, slot.last, hint) {
        append(pair, ticks, limit, roots)?;
        if ticks.last.micros == slot.last.micros {
            return Ok(());
        }
        from = ticks.last.next();
    }
    Ok(())
}

/// Appends the roots of pairs of existing objects in a slot, with root number 0. After a refusal a prefix of them is appended.
/// The hints say where the objects are in this slot, as good ones for the next.
pub fn roots_of_slot(
    _alloc: Global,
    problem: &Problem,
    slot: u32,
    pairs: &[Pair],
    limit: u64,
    hints: &mut Hints,
    roots: &mut Vec<Cell>,
) -> Result<(), RefineError>
    requires exist { All (λ pair. pair.b < length problem.now.tracks) pairs.now }
    requires room { vec_len roots.old ≤ limit }

    ensures ok { OnOk result (added_roots roots.old.items roots.new.items ≡ roots_in_slot (plain_problem problem.now) slot (map objects_of pairs.now)) }
    ensures within { OnOk result (vec_len roots.new ≤ limit) }
    ensures too_many { IsErrOf result RefineError.TooMany → limit < vec_len roots.old + length (roots_in_slot (plain_problem problem.now) slot (map objects_of pairs.now)) }
    ensures err { OnErr result (added_roots roots.old.items roots.new.items
        ≡ take (length (added_roots roots.old.items roots.new.items)) (roots_in_slot (plain_problem problem.now) slot (map objects_of pairs.now))) }

    // Each cell that is appended can be looked at and refined.
    ensures pieces { All (λ cell. KeepPieces (plain_problem problem.now) cell.pair.a cell.pair.b cell.first.micros cell.last.micros) (drop (vec_len roots.old) roots.new.items) }

    // What was there stays.
    ensures kept { take (vec_len roots.old) roots.new.items ≡ roots.old.items }
    ensures root { All (λ cell. cell.root ≡ 0) (drop (vec_len roots.old) roots.new.items) }
{
    let Some(ticks) = slot_window(problem.window, slot) else {
        return Ok(());
    };
    let tracks = problem.tracks.as_slice();
    for pair in pairs {
        let a = &tracks[pair.a as usize];
        let b = &tracks[pair.b as usize];
        let mut hint = hints.of_pair(*pair);
        walk(*pair, a, b, ticks, limit, &mut hint, roots)?;
        hints.keep(*pair, hint);
    }
    Ok(())
}
