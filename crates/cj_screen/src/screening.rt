//! From a problem to all that is found in it.
ghost use Rattle.std.specs.Prelude.{◌≡◌, ◌≢◌, ◌≤◌, List, [], Ok, Err, IfOk, IfErr, OnOk, true};
ghost use Rattle.cj_case.specs.Problems.{plain_problem};
ghost use Rattle.cj_formats.specs.declared.cert_format.CertFormat.TheVariants.{Brief};
ghost use Rattle.cj_io.specs.declared.file.FileBytes.{FileBytes};
ghost use Rattle.cj_outputs.specs.declared.findings.Behind.TheVariants.{Nothing};
ghost use Rattle.cj_words.specs.Limits.{limits_of, most_told};
ghost use Rattle.cj_words.specs.Settings.{PlainSettings};
ghost use Rattle.cj_inputs.specs.Cases.{case_asked};
ghost use Rattle.cj_outputs.specs.Again.{IsAcceptedLater};
ghost use Rattle.cj_outputs.specs.Either.{is_brief};
ghost use Rattle.cj_outputs.specs.Findings.{AreFound, cert_in, outputs_in, report_in};
ghost use Rattle.cj_screen.specs.Headline.{ReportsOf};
ghost use Rattle.cj_screen.specs.Refining.{AreFoundLines, HoldsAllTicks};
ghost use Rattle.cj_outputs.specs.Messages.{PlainOrigin};
ghost use Rattle.cj_outputs.specs.Outcome as spec;
ghost use Rattle.cj_outputs.specs.Outcome.{cert_bytes};
ghost use Rattle.cj_status.specs.Steps.{Gives, ComesBetween};

use crate::lines_found::{FoundLines, find_lines};
use crate::relatives::exact_relatives;
use cj_blocks::acceptance_in_blocks;
use cj_brief::acceptance_in_brief;
use cj_case::Problem;
use cj_cert::acceptance;
use cj_io::Gate;
use cj_outputs::{Behind, Findings, Wanted, accepted_later, count, find_meetings};
use cj_status::Status;
use std::alloc::{AllocError, Global};
use std::sync::Wait;
use std::thread::Threads;

/// All that is found in a problem, where it has at most as many leaves as are wanted, and at most as many that its certificate tells.
///
/// No clause names the workers: what is found is the same, however many there are.
pub fn screen<R: Threads + Wait + Sync, G: Gate + Sync>(
    rt: &R,
    alloc: Global,
    gate: &G,
    problem: Problem,
    wanted: Wanted,
) -> Result<Findings, Status>
    ensures between { IfErr result ComesBetween }
    ensures read { result ≢ Err Status.ReadFault }
    // Whenever and by whomever messages are made.
    ensures told { (origin : PlainOrigin) → Gives ⊥ (outputs_in origin) result
        (spec.outputs_limited wanted.leaves wanted.told wanted.tells wanted.format origin [] (plain_problem problem)) }
    ensures same { IfOk result (λ found. found.problem ≡ problem) }
    ensures wanted { IfOk result (λ found. found.wanted ≡ wanted) }
    ensures behind { IfOk result (λ found. found.behind ≡ Nothing) }
    ensures found { IfOk result AreFound }
    ensures reports { (settings : PlainSettings) → wanted.tells ≡ spec.tells_of settings
        → IfOk result (λ found. ReportsOf settings (plain_problem problem) (report_in found).bytes (cert_in found).bytes) }
    // Whatever files the problem is that of, within the limits of a run; that of a whole sky has its certificate in brief.
    ensures later { (settings : PlainSettings) (files : List FileBytes) → case_asked files settings ≡ Ok (plain_problem problem)
        → settings.limits ≡ limits_of settings.large → (settings.large ≡ true → wanted.format ≡ Brief)
        → wanted.leaves ≤ settings.limits.leaves → wanted.told ≡ most_told settings.large
        → OnOk result (IsAcceptedLater settings (is_brief wanted.format) files (cert_bytes wanted.format (plain_problem problem))) }
{
    accepted_later(&problem);
    let lines = find_lines(rt, alloc, gate, &problem, wanted)?;
    let found = tell(rt, alloc, gate, problem, wanted, lines, Behind::Nothing)?;
    Ok(found)
}

/// All that is told of a problem, once it is found what its certificate is made of.
pub fn tell<R: Threads + Sync, G: Gate + Sync>(
    rt: &R,
    alloc: Global,
    gate: &G,
    problem: Problem,
    wanted: Wanted,
    found: FoundLines,
    behind: Behind,
) -> Result<Findings, AllocError>
    requires found { AreFoundLines wanted.format (plain_problem problem) found }
    requires ticks { HoldsAllTicks (plain_problem problem) }
    ensures same { IfOk result (λ found. found.problem ≡ problem) }
    ensures wanted { IfOk result (λ found. found.wanted ≡ wanted) }
    ensures behind { IfOk result (λ found. found.behind ≡ behind) }
    ensures found { IfOk result AreFound }
    // Whatever the settings, if they name a file of sizes where the report tells them.
    ensures reports { (settings : PlainSettings) → wanted.tells ≡ spec.tells_of settings
        → IfOk result (λ found. ReportsOf settings (plain_problem problem) (report_in found).bytes (cert_in found).bytes) }
{
    acceptance(&problem);
    acceptance_in_blocks(&problem);
    acceptance_in_brief(&problem);
    exact_relatives(&problem);
    let FoundLines { lines, counted } = found;
    let met = find_meetings(rt, alloc, gate, &problem, lines.met(), wanted.workers)?;
    let counts = count(&problem, counted, &met.messages);
    Ok(Findings {
        problem,
        wanted,
        lines,
        encounters: met.encounters,
        closest: met.closest,
        messages: met.messages,
        counts,
        behind,
    })
}
