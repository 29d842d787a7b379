//! From a task to what is to be put.
ghost use Rattle.std.specs.Prelude.{◌≡◌, ℕ, List, [], Ok, IfOk, IfErr};
ghost use Rattle.cj_case.specs.Problems.{plain_problem};
ghost use Rattle.cj_io.specs.declared.file.FileBytes.{FileBytes};
ghost use Rattle.cj_words.specs.Commands.{PlainCommand, Rescreens, plain_rescreening, plain_screening};
ghost use Rattle.cj_words.specs.Limits.{most_told};
ghost use Rattle.cj_words.specs.Settings.{plain_settings};
ghost use Rattle.cj_inputs.specs.Coverings.{case_covered, cases_covered};
ghost use Rattle.cj_inputs.specs.Updates.{plain_updating};
ghost use Rattle.cj_outputs.specs.Findings.{AreFound, cert_in, outputs_in, report_in};
ghost use Rattle.cj_outputs.specs.Outcome as spec;
ghost use Rattle.cj_outputs.specs.Outcome.{ComesOfSelfrun};
ghost use Rattle.cj_screen.specs.Headline.{Reports};
ghost use Rattle.cj_screen.specs.Results.{AreDue, ShowsDue, outputs_due};
ghost use Rattle.cj_screen.specs.Tasks.{ComesOfSearch, Readies, outputs_of_task};
ghost use Rattle.cj_status.specs.Steps.{Gives};

use crate::changing::screen_changes;
use crate::rescreening::rescreen;
use crate::results::Results;
use crate::screening::screen;
use crate::selfruns::selfrun_catalogue;
use crate::task::Task;
use crate::warnings::warn_of_messages;
use cj_base::Tick;
use cj_case::Problem;
use cj_gen::catalogue;
use cj_inputs::Updating;
use cj_io::Gate;
use cj_outputs::{Findings, Origin, Wanted, stays_within};
use cj_status::Status;
use cj_words::{Rescreening, Screening};
use std::alloc::Global;
use std::sync::Wait;
use std::thread::Threads;

/// What a task comes to, with messages that are made at this time.
pub fn find<'w, R: Threads + Wait + Sync, G: Gate + Sync>(
    rt: &R,
    alloc: Global,
    gate: &G,
    task: Task<'w>,
    now: Tick,
) -> Result<Results<'w>, Status>
    ensures ends { IfErr result (ComesOfSearch task.entry) }
    ensures told { Gives ⊥ outputs_due result (outputs_of_task now.micros task.entry) }
    ensures due { IfOk result AreDue }
    ensures shows { (files : List FileBytes) (command : PlainCommand) → Readies command files task.entry → IfOk result (ShowsDue command files) }
{
    match task {
        Task::Screen(problem, screening) => {
            let found = find_encounters(rt, alloc, gate, problem, &screening)?;
            warn_of_messages(gate, &found);
            Ok(Results::Screened(found, Origin::of(&screening, now)))
        }
        Task::Accept => Ok(Results::Checked),
        Task::Make(recipe) => Ok(Results::Made(catalogue(
            alloc,
            recipe.seed,
            recipe.objects,
            recipe.minutes,
        )?)),
        Task::Selfrun(selfrun) => Ok(Results::Selfrun(selfrun_catalogue(
            rt, alloc, gate, &selfrun,
        )?)),
        Task::Renew(certificate) => Ok(Results::Rewritten(certificate)),
        Task::Thin(lone, thinning) => {
            stays_within(&lone, &thinning);
            Ok(Results::Thinned(lone, thinning))
        }
        Task::Rescreen(updating, rescreening) => {
            find_again(rt, alloc, gate, updating, &rescreening, now)
        }
    }
}

/// All that is found in a problem by a screening.
fn find_encounters<R: Threads + Wait + Sync, G: Gate + Sync>(
    rt: &R,
    alloc: Global,
    gate: &G,
    problem: Problem,
    screening: &Screening,
) -> Result<Findings, Status>
    ensures ends { IfErr result ComesOfSelfrun }
    // At whatever tick the messages are made.
    ensures told { (now : ℕ) → Gives ⊥ (outputs_in (spec.origin_of now (plain_screening screening.now))) result
        (spec.outputs_limited screening.now.cells (most_told screening.now.settings.large) (spec.tells_of (plain_settings screening.now.settings)) screening.now.format
        (spec.origin_of now (plain_screening screening.now)) [] (plain_problem problem)) }
    ensures found { IfOk result AreFound }
    ensures reports { (files : List FileBytes) → case_covered files (plain_settings screening.now.settings) ≡ Ok (plain_problem problem)
        → IfOk result (λ found. Reports (plain_screening screening.now) files (report_in found).bytes (cert_in found).bytes) }
{
    screen(rt, alloc, gate, problem, Wanted::of(screening))
}

/// What is found after updates: all of it, or what is found of the pairs that are not unchanged.
fn find_again<'w, R: Threads + Wait + Sync, G: Gate + Sync>(
    rt: &R,
    alloc: Global,
    gate: &G,
    updating: Updating,
    rescreening: &Rescreening<'w>,
    now: Tick,
) -> Result<Results<'w>, Status>
    ensures ends { IfErr result ComesOfSelfrun }
    ensures told { Gives ⊥ outputs_due result (spec.outputs_updated now.micros (plain_rescreening rescreening.now) (plain_updating updating)) }
    ensures due { IfOk result AreDue }
    ensures shows { (files : List FileBytes) → cases_covered files (plain_rescreening rescreening.now) ≡ Ok (plain_updating updating)
        → IfOk result (ShowsDue (Rescreens (plain_rescreening rescreening.now)) files) }
{
    let screening = &rescreening.screening;
    let wanted = Wanted::of(screening);
    if rescreening.changed {
        let changes = screen_changes(rt, alloc, gate, updating, wanted)?;
        return Ok(Results::Changed(changes));
    }
    let found = rescreen(rt, alloc, gate, updating, wanted)?;
    warn_of_messages(gate, &found);
    Ok(Results::Screened(found, Origin::of(screening, now)))
}
