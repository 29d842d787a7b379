//! The cells of a certificate against the roots, one after another.
ghost use Rattle.std.specs.Prelude.{◌≡◌, ◌≤◌, ◌<◌, [], ◌∷◌, length, map, All, IfOk, IfErr};
ghost use Rattle.cj_case.specs.PlainProblems.{PlainProblem};
ghost use Rattle.cj_case.specs.Problems.{plain_problem};
ghost use Rattle.cj_hermite.specs.Roots.{roots_between, roots_in};
ghost use Rattle.cj_cert.specs.Certificates.{plain_cell_line};
ghost use Rattle.cj_checker.specs.First.{begins, comes_after, unsupported as what_fails};
ghost use Rattle.cj_checker.specs.Keys.{plain_key, roots_of_keys};
ghost use Rattle.cj_checker.specs.Tiling.{AreOver, IsOf, Tiles, cause_at, is_shown, root_from};

use crate::cell_fault::CellFault;
use crate::keys::Key;
use crate::root::Root;
use cj_base::{Tick, Window};
use cj_case::{Kind, Pair, Problem, slot_window};
use cj_cert::CellLine;
use cj_formats::CheckCause;
use cj_hermite::{PairHint, next_common_pieces};

/// What is wrong with a cell of a kind that is not supported.
fn unsupported(kind: Kind) -> CheckCause
    ensures { result ≡ what_fails kind }
{
    match kind {
        Kind::Far => CheckCause::NotFar,
        Kind::Near => CheckCause::NotNear,
        Kind::Undecided => CheckCause::NotBand,
    }
}

/// Whether a cell begins a root from a tick on, and ends in it.
fn begins_root(root: &Root, from: Tick, cell: &CellLine) -> bool
    ensures { result ≡ begins (root_from root.now from.micros) (plain_cell_line cell.now) }
{
    cell.pair == root.pair && cell.first == from && cell.last.micros <= root.ticks.last.micros
}

/// Whether a cell begins behind a tick of a root, in order of pair and tick.
fn is_behind(root: &Root, from: Tick, cell: &CellLine) -> bool
    ensures { result ≡ comes_after (root_from root.now from.micros) (plain_cell_line cell.now) }
{
    (root.pair, from) < (cell.pair, cell.first)
}

/// What is wrong with a cell where the ticks of a root are left from this one on.
fn cause_of(root: &Root, from: Tick, cell: &CellLine) -> Option<CheckCause>
    requires { AreOver root.now from.micros root.now.ticks.last.micros }
    ensures { result ≡ cause_at (is_shown root.now cell.now) (root_from root.now from.micros) (plain_cell_line cell.now) }
{
    if !begins_root(root, from, cell) {
        let cause = if is_behind(root, from, cell) {
            CheckCause::Untiled
        } else {
            CheckCause::Stranger
        };
        return Some(cause);
    }
    if root.supports(cell) {
        None
    } else {
        Some(unsupported(cell.kind))
    }
}

/// The place behind the cells that tile a root, the first of which is at a place.
fn tile_root(root: &Root, cells: &[CellLine], at: usize) -> Result<usize, CellFault>
    requires some { root.now.ticks.first.micros ≤ root.now.ticks.last.micros }
    requires over { AreOver root.now root.now.ticks.first.micros root.now.ticks.last.micros }
    requires place { at ≤ length cells.now }

    ensures tiles { (case : PlainProblem) → IsOf case root.now → Tiles case (root_from root.now root.now.ticks.first.micros ∷ []) cells.now at result }
    ensures ok { IfOk result (λ next. next ≤ length cells.now) }
    ensures err { IfErr result (λ fault. fault.at ≤ length cells.now) }
{
    let mut at = at;
    let mut from = root.ticks.first;
    while at < cells.len() {
        let cell = &cells[at];
        if let Some(cause) = cause_of(root, from, cell) {
            return Err(CellFault { at, cause });
        }
        at += 1;
        if root.ticks.last.micros <= cell.last.micros {
            return Ok(at);
        }
        from = cell.last.next();
    }
    Err(CellFault {
        at,
        cause: CheckCause::Untiled,
    })
}

/// The place behind the cells that tile the roots of a pair at these ticks, the first of which is at a place. The hint then says where
/// the pair is.
fn tile_ticks(
    problem: &Problem,
    pair: Pair,
    ticks: Window,
    cells: &[CellLine],
    at: usize,
    hint: &mut PairHint,
) -> Result<usize, CellFault>
    requires exists { pair.b < length problem.now.tracks }
    requires some { ticks.first.micros ≤ ticks.last.micros }
    requires place { at ≤ length cells.now }
    ensures tiles { Tiles (plain_problem problem.now)
        (roots_between (plain_problem problem.now) pair.a pair.b ticks.first.micros ticks.last.micros) cells.now at result }
    ensures ok { IfOk result (λ next. next ≤ length cells.now) }
    ensures err { IfErr result (λ fault. fault.at ≤ length cells.now) }
{
    let tracks = problem.tracks.as_slice();
    let a = &tracks[pair.a as usize];
    let b = &tracks[pair.b as usize];
    let mut at = at;
    let mut from = ticks.first;
    while let Some(run) = next_common_pieces(a, b, from, ticks.last, hint) {
        let root = Root::new(problem, pair, &run);
        at = tile_root(&root, cells, at)?;
        if run.ticks.last.micros == ticks.last.micros {
            return Ok(at);
        }
        from = run.ticks.last.next();
    }
    Ok(at)
}

/// The place behind the cells that tile the roots of a pair in a slot, the first of which is at a place.
fn tile_slot(
    problem: &Problem,
    pair: Pair,
    slot: u32,
    cells: &[CellLine],
    at: usize,
    hint: &mut PairHint,
) -> Result<usize, CellFault>
    requires exists { pair.b < length problem.now.tracks }
    requires place { at ≤ length cells.now }
    ensures tiles { Tiles (plain_problem problem.now) (roots_in (plain_problem problem.now) slot pair.a pair.b) cells.now at result }
    ensures ok { IfOk result (λ next. next ≤ length cells.now) }
    ensures err { IfErr result (λ fault. fault.at ≤ length cells.now) }
{
    match slot_window(problem.window, slot) {
        None => Ok(at),
        Some(ticks) => tile_ticks(problem, pair, ticks, cells, at, hint),
    }
}

/// The place behind the cells that tile the roots of some keys, the first of which is at a place.
pub(crate) fn tile_keys(
    problem: &Problem,
    keys: &[Key],
    cells: &[CellLine],
    at: usize,
) -> Result<usize, CellFault>
    requires ordered { All (λ key. key.a < key.b) keys.now }
    requires exist { All (λ key. key.b < length problem.now.tracks) keys.now }
    requires place { at ≤ length cells.now }
    ensures tiles { Tiles (plain_problem problem.now) (roots_of_keys (plain_problem problem.now) (map plain_key keys.now)) cells.now at result }
    ensures ok { IfOk result (λ next. next ≤ length cells.now) }
    ensures err { IfErr result (λ fault. fault.at ≤ length cells.now) }
{
    // Where a pair is in one slot is where to look first in the next.
    let mut hint = PairHint::default();
    let mut at = at;
    for key in keys {
        at = tile_slot(problem, key.pair(), key.slot, cells, at, &mut hint)?;
    }
    Ok(at)
}
