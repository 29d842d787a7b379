//! From a problem before updates and the one after them to all that is found in the latter: of unchanged pairs it is carried over.
ghost use Rattle.std.specs.Prelude.{◌≡◌, ◌≢◌, ◌<◌, ◌≤◌, ◌++◌, Err, IfOk, IfErr, IsErrOf, OnOk, length, vec_len};
ghost use Rattle.cj_base.specs.Bounds.{MOST_LEAVES};
ghost use Rattle.cj_candidates.specs.MeasuredObjects.{AreOfProblem};
ghost use Rattle.cj_case.specs.Cells.{plain_cells};
ghost use Rattle.cj_case.specs.Leaves.{plain_leaves};
ghost use Rattle.cj_case.specs.Problems.{plain_problem};
ghost use Rattle.cj_bezier.specs.Candidates.{is_candidate, pairs_kept};
ghost use Rattle.cj_bezier.specs.Enclosed.{OthersAreFar};
ghost use Rattle.cj_bezier.specs.MeasuredObjects.{AreMeasured};
ghost use Rattle.cj_candidates.specs.Counts.{candidate_count};
ghost use Rattle.cj_cells.specs.Lists.{list_candidates};
ghost use Rattle.cj_hermite.specs.Roots.{roots_of};
ghost use Rattle.cj_outputs.specs.Findings.{AreFound, cert_in, outputs_in, report_in, summary_in};
ghost use Rattle.cj_outputs.specs.Messages.{PlainOrigin};
ghost use Rattle.cj_outputs.specs.Outcome as spec;
ghost use Rattle.cj_report.specs.Summary.{kept_line};
ghost use Rattle.cj_screen.specs.Headline.{ReportsOf};
ghost use Rattle.cj_screen.specs.Refining.{AreFoundLeaves, HoldsAllTicks, leaves_within};
ghost use Rattle.cj_status.specs.Steps.{Gives, ComesBetween};
ghost use Rattle.cj_words.specs.Settings.{PlainSettings};

use crate::lines_found::lines_of;
use crate::refining::{FoundLeaves, counts_of, refine, refused, told_leaves};
use crate::screening::tell;
use cj_again::{Matching, carried, changed_roots, kept_unchanged, match_objects, places};
use cj_candidates::{Candidates, find_among, measure_again};
use cj_case::{Cell, Leaf, Measured, Problem};
use cj_cells::RefineError;
use cj_inputs::Updating;
use cj_io::Gate;
use cj_outputs::{Behind, Findings, Wanted};
use cj_pool::{leaves_of_list, true_lists};
use cj_status::Status;
use std::alloc::Global;
use std::sync::Wait;
use std::thread::Threads;

/// The leaves of a problem after updates, and what they come from.
#[derive(Drop)]
pub struct FoundAgain {
    pub found: FoundLeaves,
    /// How many of its pairs are kept and unchanged.
    pub kept: u64,
}

/// All that is found in a problem after updates, where it and the one before them have at most as many leaves as are wanted.
#[tactic(auto, unfolding(cj_outputs::specs::Outcome::outputs_again))]
pub fn rescreen<R: Threads + Wait + Sync, G: Gate + Sync>(
    rt: &R,
    alloc: Global,
    gate: &G,
    updating: Updating,
    wanted: Wanted,
) -> Result<Findings, Status>
    ensures between { IfErr result ComesBetween }
    ensures read { result ≢ Err Status.ReadFault }
    // Whenever and by whomever messages are made.
    ensures told { (origin : PlainOrigin) → Gives ⊥ (outputs_in origin) result
        (spec.outputs_again wanted.leaves wanted.tells wanted.format origin (plain_problem updating.base) (plain_problem updating.new)) }
    ensures found { IfOk result AreFound }
    ensures reports { (settings : PlainSettings) → wanted.tells ≡ spec.tells_of settings
        → IfOk result (λ found. ReportsOf settings (plain_problem updating.new) (report_in found).bytes (cert_in found).bytes) }
    ensures summary { IfOk result (λ found. summary_in found
        ≡ spec.summary_with (kept_line (spec.kept_unchanged (plain_problem updating.base) (plain_problem updating.new))
        ++ spec.uncovered_told wanted.tells (plain_problem updating.new)) (plain_problem updating.new) (list_candidates (plain_problem updating.new))) }
{
    let Updating { base, new } = updating;
    let again = refine_again(rt, alloc, gate, &base, &new, wanted)?;
    drop(base);
    let behind = Behind::Kept(again.kept);
    let lines = lines_of(again.found, wanted.format);
    let found = tell(rt, alloc, gate, new, wanted, lines, behind)?;
    Ok(found)
}

/// The leaves of a problem after updates, where it and the one before them have at most as many as are wanted.
fn refine_again<R: Threads + Wait + Sync, G: Gate + Sync>(
    rt: &R,
    alloc: Global,
    gate: &G,
    base: &Problem,
    new: &Problem,
    wanted: Wanted,
) -> Result<FoundAgain, Status>
    requires first { new.now.window.first.micros ≡ base.now.window.first.micros }
    requires last { new.now.window.last.micros ≡ base.now.window.last.micros }
    requires threshold { new.now.threshold ≡ base.now.threshold }
    ensures between { IfErr result ComesBetween }
    ensures told { Gives ⊥ (λ again. plain_leaves again.found.leaves.items) result
        (leaves_within wanted.leaves (plain_problem base.now) (plain_problem new.now)) }
    ensures refined { IfOk result (λ again. AreFoundLeaves wanted.format (plain_problem new.now) again.found) }
    ensures kept { IfOk result (λ again. again.kept ≡ spec.kept_unchanged (plain_problem base.now) (plain_problem new.now)) }
    ensures ticks { OnOk result (HoldsAllTicks (plain_problem new.now)) }
{
    let before = refine(rt, alloc, gate, base, wanted)?;
    match refine_after(rt, alloc, gate, base, new, before, wanted) {
        Ok(again) => Ok(again),
        Err(error) => Err(refused(error, wanted.leaves)),
    }
}

/// The same once the leaves before the updates are found.
fn refine_after<R: Threads + Wait + Sync, G: Gate + Sync>(
    rt: &R,
    alloc: Global,
    gate: &G,
    base: &Problem,
    new: &Problem,
    before: FoundLeaves,
    wanted: Wanted,
) -> Result<FoundAgain, RefineError>
    requires first { new.now.window.first.micros ≡ base.now.window.first.micros }
    requires last { new.now.window.last.micros ≡ base.now.window.last.micros }
    requires threshold { new.now.threshold ≡ base.now.threshold }
    requires theirs { AreOfProblem base.now before.measured }
    requires refined { AreFoundLeaves wanted.format (plain_problem base.now) before }
    ensures too_many { IsErrOf result RefineError.TooMany → wanted.leaves < length (list_candidates (plain_problem new.now)) }
    ensures few { IfOk result (λ again. length again.found.leaves.items ≤ wanted.leaves) }
    ensures refined { IfOk result (λ again. AreFoundLeaves wanted.format (plain_problem new.now) again.found) }
    ensures kept { IfOk result (λ again. again.kept ≡ spec.kept_unchanged (plain_problem base.now) (plain_problem new.now)) }
    ensures ticks { OnOk result (HoldsAllTicks (plain_problem new.now)) }
{
    true_lists(new);
    let FoundLeaves {
        measured,
        leaves,
        ..
    } = before;
    let matching = match_objects(alloc, base, new)?;
    let candidates = candidates_again(rt, alloc, gate, &matching, &measured, wanted)?;
    drop(measured);
    let kept = kept_unchanged(&matching, &candidates.measured.shells);
    let counted = counts_of(&candidates);
    let Candidates {
        measured,
        roots,
        ..
    } = candidates;
    let leaves = leaves_again(rt, alloc, gate, &matching, &leaves, &roots, wanted)?;
    let told = told_leaves(alloc, new, &roots, &leaves, wanted.format)?;
    let found = FoundLeaves {
        measured,
        counted,
        leaves,
        told,
    };
    Ok(FoundAgain { found, kept })
}

/// The candidates of a problem after updates. What was measured of unchanged objects is taken over.
fn candidates_again<R: Threads + Sync, G: Gate + Sync>(
    rt: &R,
    alloc: Global,
    gate: &G,
    matching: &Matching<'_>,
    measured: &Measured,
    wanted: Wanted,
) -> Result<Candidates, RefineError>
    requires first { matching.now.new.now.window.first.micros ≡ matching.now.old.now.window.first.micros }
    requires last { matching.now.new.now.window.last.micros ≡ matching.now.old.now.window.last.micros }
    requires theirs { AreOfProblem matching.now.old.now measured.now }
    ensures too_many { IsErrOf result RefineError.TooMany
        → wanted.leaves < length (roots_of (is_candidate (plain_problem matching.now.new.now)) (plain_problem matching.now.new.now)) }
    ensures measured { IfOk result (λ found. AreMeasured (plain_problem matching.now.new.now) found.measured) }
    ensures kept { IfOk result (λ found. found.kept ≡ length (pairs_kept (plain_problem matching.now.new.now))) }
    ensures roots { IfOk result (λ found. plain_cells found.roots.items
        ≡ roots_of (is_candidate (plain_problem matching.now.new.now)) (plain_problem matching.now.new.now)) }
    ensures few { IfOk result (λ found. vec_len found.roots ≤ wanted.leaves) }
    ensures touching { IfOk result (λ found. found.touching ≡ candidate_count (plain_problem matching.now.new.now)) }
    ensures far { OnOk result (OthersAreFar (plain_problem matching.now.new.now) (is_candidate (plain_problem matching.now.new.now))) }
{
    let places = places(alloc, matching)?;
    let again = measure_again(
        rt,
        alloc,
        gate,
        matching.new,
        matching.old,
        measured,
        &places,
        wanted.workers,
    )?;
    find_among(
        rt,
        alloc,
        gate,
        matching.new,
        again,
        wanted.workers,
        wanted.leaves,
    )
}

/// The leaves after updates, of those before them and all roots after them.
fn leaves_again<R: Threads + Wait + Sync, G: Gate + Sync>(
    rt: &R,
    alloc: Global,
    gate: &G,
    matching: &Matching<'_>,
    before: &[Leaf],
    roots: &[Cell],
    wanted: Wanted,
) -> Result<Vec<Leaf>, RefineError>
    requires first { matching.now.new.now.window.first.micros ≡ matching.now.old.now.window.first.micros }
    requires last { matching.now.new.now.window.last.micros ≡ matching.now.old.now.window.last.micros }
    requires threshold { matching.now.new.now.threshold ≡ matching.now.old.now.threshold }
    requires before { plain_leaves before.now ≡ list_candidates (plain_problem matching.now.old.now) }
    requires few { length roots.now ≤ wanted.leaves }
    requires roots { plain_cells roots.now ≡ roots_of (is_candidate (plain_problem matching.now.new.now)) (plain_problem matching.now.new.now) }
    ensures value { IfOk result (λ leaves. plain_leaves leaves.items ≡ list_candidates (plain_problem matching.now.new.now)) }
    ensures within { IfOk result (λ leaves. vec_len leaves ≤ wanted.leaves) }
    ensures too_many { IsErrOf result RefineError.TooMany → wanted.leaves < length (list_candidates (plain_problem matching.now.new.now)) }
{
    let anew = leaves_anew(rt, alloc, gate, matching, roots, wanted)?;
    carried(alloc, matching, before, &anew, wanted.leaves)
}

/// The leaves of those pairs alone that are not unchanged, of all roots.
fn leaves_anew<R: Threads + Wait + Sync, G: Gate + Sync>(
    rt: &R,
    alloc: Global,
    gate: &G,
    matching: &Matching<'_>,
    roots: &[Cell],
    wanted: Wanted,
) -> Result<Vec<Leaf>, RefineError>
    requires few { length roots.now ≤ MOST_LEAVES }
    requires roots { plain_cells roots.now ≡ roots_of (is_candidate (plain_problem matching.now.new.now)) (plain_problem matching.now.new.now) }
    ensures value { IfOk result (λ leaves. plain_leaves leaves.items ≡ spec.list_anew (plain_problem matching.now.old.now) (plain_problem matching.now.new.now)) }
    ensures within { IfOk result (λ leaves. vec_len leaves ≤ wanted.leaves) }
    ensures too_many { IsErrOf result RefineError.TooMany
        → wanted.leaves < length (spec.list_anew (plain_problem matching.now.old.now) (plain_problem matching.now.new.now)) }
{
    let changed = changed_roots(alloc, matching, roots)?;
    if changed.len() as u64 > wanted.leaves {
        return Err(RefineError::TooMany);
    }
    leaves_of_list(
        rt,
        alloc,
        gate,
        matching.new,
        changed,
        wanted.workers,
        wanted.leaves,
    )
}
