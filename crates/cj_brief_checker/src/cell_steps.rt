//! What a cell is for a root of which some ticks are left.
ghost use Rattle.std.specs.Prelude.{◌≡◌, if◌then◌else◌, IsTrue, Some, true};
ghost use Rattle.cj_case.specs.Slots.{slot_of as the_slot_of};
ghost use Rattle.cj_cert.specs.Certificates.{plain_cell_line};
ghost use Rattle.cj_formats.specs.declared.check_cause.CheckCause.TheVariants.{Stranger};
ghost use Rattle.cj_bezier.specs.Verdicts.{kind_of};
ghost use Rattle.cj_checker.specs.First.{begins, comes_after, unsupported as what_fails};
ghost use Rattle.cj_checker.specs.Tiling.{AreOver, is_shown, root_from};
ghost use Rattle.cj_brief_checker.specs.declared.step.Step.TheVariants as steps;
ghost use Rattle.cj_brief_checker.specs.FarThroughout.{IsVerdictOf};
ghost use Rattle.cj_brief_checker.specs.First.{comes_later as the_later};
ghost use Rattle.cj_brief_checker.specs.Steps.{step_of as the_step_of};

use crate::step::Step;
use cj_base::Tick;
use cj_bezier::Verdict;
use cj_case::{Kind, SLOT};
use cj_cert::CellLine;
use cj_checker::Root;
use cj_formats::CheckCause;

/// What is wrong with a cell of a kind that is not supported.
fn unsupported(kind: Kind) -> CheckCause
    ensures { result ≡ what_fails kind }
{
    match kind {
        Kind::Far => CheckCause::NotFar,
        Kind::Near => CheckCause::NotNear,
        Kind::Undecided => CheckCause::NotBand,
    }
}

/// Whether a cell begins a root from a tick on, and ends in it.
fn begins_root(root: &Root, from: Tick, cell: &CellLine) -> bool
    ensures { result ≡ begins (root_from root.now from.micros) (plain_cell_line cell.now) }
{
    cell.pair == root.pair && cell.first == from && cell.last.micros <= root.ticks.last.micros
}

/// Whether a cell begins behind a tick of a root, in order of pair and tick.
fn is_behind(root: &Root, from: Tick, cell: &CellLine) -> bool
    ensures { result ≡ comes_after (root_from root.now from.micros) (plain_cell_line cell.now) }
{
    (root.pair, from) < (cell.pair, cell.first)
}

/// The slot of a tick of a window that begins at `first`, and 0 before it.
pub(crate) fn slot_of(first: Tick, at: Tick) -> u64
    ensures { result ≡ the_slot_of first.micros at.micros }
{
    at.micros.saturating_sub(first.micros) / SLOT
}

/// Whether a cell begins in a slot behind that of a tick of a root, or behind the tick in the same slot, in order of pair and tick. The
/// slots are those of a window that begins at `first`.
fn comes_later(first: Tick, root: &Root, from: Tick, cell: &CellLine) -> bool
    ensures { result ≡ the_later first.micros (root_from root.now from.micros) (plain_cell_line cell.now) }
{
    if cell.first.micros < first.micros {
        return false;
    }
    let own = slot_of(first, from);
    let other = slot_of(first, cell.first);
    own < other || (own == other && is_behind(root, from, cell))
}

/// What a cell is that does not begin with what is left of a root.
fn misplaced(later: bool) -> Step
    ensures { result ≡ (if later then steps.Leaves else steps.Fails Stranger) }
{
    if later {
        Step::Leaves
    } else {
        Step::Fails(CheckCause::Stranger)
    }
}

/// Whether a verdict is that two pieces are of a kind.
fn says(verdict: Verdict, kind: Kind) -> bool
    ensures { IsTrue result → kind_of verdict ≡ Some kind }
{
    match verdict {
        Verdict::Far => kind == Kind::Far,
        Verdict::Near => kind == Kind::Near,
        Verdict::Undecided => kind == Kind::Undecided,
        Verdict::Split => false,
    }
}

/// Whether a cell has all ticks of a root.
fn has_all(root: &Root, cell: &CellLine) -> bool
    ensures first { IsTrue result → cell.now.first.micros ≡ root.now.ticks.first.micros }
    ensures last { IsTrue result → cell.now.last.micros ≡ root.now.ticks.last.micros }
{
    cell.first == root.ticks.first && cell.last == root.ticks.last
}

/// The same, with the kind that the verdict on them says.
fn is_told(root: &Root, verdict: Verdict, cell: &CellLine) -> bool
    requires { IsVerdictOf root.now verdict }
    ensures { IsTrue result → is_shown root.now cell.now ≡ true }
{
    has_all(root, cell) && says(verdict, cell.kind)
}

/// What a cell is for a root whose ticks from one on are left, by the verdict on all of its ticks. The slots are those of a window that begins
/// at `first`.
pub(crate) fn step_at(
    first: Tick,
    root: &Root,
    verdict: Verdict,
    from: Tick,
    cell: &CellLine,
) -> Step
    requires over { AreOver root.now from.micros root.now.ticks.last.micros }
    requires verdict { IsVerdictOf root.now verdict }
    ensures { result ≡ the_step_of (is_shown root.now cell.now) first.micros (root_from root.now from.micros) (plain_cell_line cell.now) }
{
    if !begins_root(root, from, cell) {
        return misplaced(comes_later(first, root, from, cell));
    }
    if is_told(root, verdict, cell) || root.supports(cell) {
        Step::Takes
    } else {
        Step::Fails(unsupported(cell.kind))
    }
}
