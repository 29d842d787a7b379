//! The cells of a certificate in brief against the roots, slot by slot. Those of a root that is far throughout may be left out.
ghost use Rattle.std.specs.Prelude.{◌≡◌, ◌≤◌, ◌<◌, [], ◌∷◌, All, length, map, IfOk, IfErr};
ghost use Rattle.cj_case.specs.Pairs.{objects_of};
ghost use Rattle.cj_case.specs.PlainProblems.{PlainProblem};
ghost use Rattle.cj_case.specs.Problems.{plain_problem};
ghost use Rattle.cj_hermite.specs.Roots.{roots_between, roots_in, roots_in_slot};
ghost use Rattle.cj_checker.specs.Tiling.{AreOver, IsOf, root_from};
ghost use Rattle.cj_brief_checker.specs.FarThroughout.{IsVerdictOf};
ghost use Rattle.cj_brief_checker.specs.First.{wants_cells};
ghost use Rattle.cj_brief_checker.specs.Steps.{Tells, left_at};

use crate::cell_steps::step_at;
use crate::far::{is_far_throughout, verdict_of};
use crate::judged_root::JudgedRoot;
use crate::scratch::Scratch;
use crate::step::Step;
use cj_base::{Tick, Window};
use cj_bezier::Verdict;
use cj_case::{Pair, Problem, slot_window};
use cj_cert::CellLine;
use cj_checker::{CellFault, Root};
use cj_formats::CheckCause;
use cj_hermite::{Hints, next_common_pieces};

/// Leaves a root whose next ticks have no cell, at the place of the next cell. It may be left only where none of its ticks has a cell,
/// and it is far throughout.
fn leave_root(root: &Root, verdict: Verdict, begun: bool, at: usize) -> Result<usize, CellFault>
    requires some { root.now.ticks.first.micros ≤ root.now.ticks.last.micros }
    requires over { AreOver root.now root.now.ticks.first.micros root.now.ticks.last.micros }
    requires verdict { IsVerdictOf root.now verdict }
    ensures tells { (case : PlainProblem) → IsOf case root.now
        → result ≡ left_at (wants_cells case begun (root_from root.now root.now.ticks.first.micros)) at }
    ensures ok { IfOk result (λ next. next ≡ at) }
    ensures err { IfErr result (λ fault. fault.at ≡ at) }
{
    let untiled = Err(CellFault {
        at,
        cause: CheckCause::Untiled,
    });
    if begun {
        return untiled;
    }
    if is_far_throughout(root, verdict) {
        Ok(at)
    } else {
        untiled
    }
}

/// The place behind the cells that tile a root, the first of which is at a place. The slots are those of a window that begins at `first`.
fn tile_root(
    first: Tick,
    root: &Root,
    verdict: Verdict,
    cells: &[CellLine],
    at: usize,
) -> Result<usize, CellFault>
    requires some { root.now.ticks.first.micros ≤ root.now.ticks.last.micros }
    requires over { AreOver root.now root.now.ticks.first.micros root.now.ticks.last.micros }
    requires verdict { IsVerdictOf root.now verdict }
    requires place { at ≤ length cells.now }

    ensures tells { (case : PlainProblem) → IsOf case root.now → case.first ≡ first.micros
        → Tells case (root_from root.now root.now.ticks.first.micros ∷ []) cells.now at result }
    ensures ok { IfOk result (λ next. next ≤ length cells.now) }
    ensures err { IfErr result (λ fault. fault.at ≤ length cells.now) }
{
    let mut at = at;
    let mut from = root.ticks.first;
    let mut begun = false;
    while at < cells.len() {
        let cell = &cells[at];
        match step_at(first, root, verdict, from, cell) {
            Step::Fails(cause) => return Err(CellFault { at, cause }),
            Step::Leaves => return leave_root(root, verdict, begun, at),
            Step::Takes => {}
        }
        at += 1;
        if root.ticks.last.micros <= cell.last.micros {
            return Ok(at);
        }
        from = cell.last.next();
        begun = true;
    }
    leave_root(root, verdict, begun, at)
}

/// The place behind the cells that tile the roots of a pair at these ticks, the first of which is at a place. Each root is searched for.
fn tile_ticks(
    problem: &Problem,
    pair: Pair,
    ticks: Window,
    hints: &mut Hints,
    cells: &[CellLine],
    at: usize,
) -> Result<usize, CellFault>
    requires exists { pair.b < length problem.now.tracks }
    requires some { ticks.first.micros ≤ ticks.last.micros }
    requires place { at ≤ length cells.now }
    ensures tells { Tells (plain_problem problem.now)
        (roots_between (plain_problem problem.now) pair.a pair.b ticks.first.micros ticks.last.micros) cells.now at result }
    ensures ok { IfOk result (λ next. next ≤ length cells.now) }
    ensures err { IfErr result (λ fault. fault.at ≤ length cells.now) }
{
    let tracks = problem.tracks.as_slice();
    let a = &tracks[pair.a as usize];
    let b = &tracks[pair.b as usize];
    let mut hint = hints.of_pair(pair);
    let mut at = at;
    let mut from = ticks.first;
    while let Some(run) = next_common_pieces(a, b, from, ticks.last, &mut hint) {
        hints.keep(pair, hint);
        let root = Root::new(problem, pair, &run);
        let verdict = verdict_of(&root);
        at = tile_root(problem.window.first, &root, verdict, cells, at)?;
        if run.ticks.last.micros == ticks.last.micros {
            return Ok(at);
        }
        from = run.ticks.last.next();
    }
    Ok(at)
}

/// The same, where the one root of two objects that are at one piece each is not searched for.
fn tile_over(
    problem: &Problem,
    pair: Pair,
    ticks: Window,
    scratch: &mut Scratch<'_>,
    cells: &[CellLine],
    at: usize,
) -> Result<usize, CellFault>
    requires exists { pair.b < length problem.now.tracks }
    requires some { ticks.first.micros ≤ ticks.last.micros }
    requires place { at ≤ length cells.now }
    requires cuts { scratch.old.cuts ≡ problem.now }
    ensures cuts { scratch.new.cuts ≡ scratch.old.cuts }
    ensures tells { Tells (plain_problem problem.now)
        (roots_between (plain_problem problem.now) pair.a pair.b ticks.first.micros ticks.last.micros) cells.now at result }
    ensures ok { IfOk result (λ next. next ≤ length cells.now) }
    ensures err { IfErr result (λ fault. fault.at ≤ length cells.now) }
{
    match scratch.cuts.root(pair, ticks) {
        Some(JudgedRoot { root, verdict }) => {
            tile_root(problem.window.first, &root, verdict, cells, at)
        }
        None => tile_ticks(problem, pair, ticks, &mut scratch.hints, cells, at),
    }
}

/// The place behind the cells that tile the roots of a pair in a slot, the first of which is at a place.
fn tile_pair(
    problem: &Problem,
    pair: Pair,
    slot: u32,
    scratch: &mut Scratch<'_>,
    cells: &[CellLine],
    at: usize,
) -> Result<usize, CellFault>
    requires exists { pair.b < length problem.now.tracks }
    requires place { at ≤ length cells.now }
    requires cuts { scratch.old.cuts ≡ problem.now }
    ensures cuts { scratch.new.cuts ≡ scratch.old.cuts }
    ensures tells { Tells (plain_problem problem.now) (roots_in (plain_problem problem.now) slot pair.a pair.b) cells.now at result }
    ensures ok { IfOk result (λ next. next ≤ length cells.now) }
    ensures err { IfErr result (λ fault. fault.at ≤ length cells.now) }
{
    match slot_window(problem.window, slot) {
        None => Ok(at),
        Some(ticks) => tile_over(problem, pair, ticks, scratch, cells, at),
    }
}

/// The place behind the cells that tile the roots of some pairs in a slot, the first of which is at a place.
pub(crate) fn tile_slot(
    problem: &Problem,
    slot: u32,
    pairs: &[Pair],
    scratch: &mut Scratch<'_>,
    cells: &[CellLine],
    at: usize,
) -> Result<usize, CellFault>
    requires exist { All (λ pair. pair.b < length problem.now.tracks) pairs.now }
    requires place { at ≤ length cells.now }
    requires cuts { scratch.old.cuts ≡ problem.now }
    ensures cuts { scratch.new.cuts ≡ scratch.old.cuts }
    ensures tells { Tells (plain_problem problem.now) (roots_in_slot (plain_problem problem.now) slot (map objects_of pairs.now)) cells.now at result }
    ensures ok { IfOk result (λ next. next ≤ length cells.now) }
    ensures err { IfErr result (λ fault. fault.at ≤ length cells.now) }
{
    let mut at = at;
    for pair in pairs {
        at = tile_pair(problem, *pair, slot, scratch, cells, at)?;
    }
    Ok(at)
}
