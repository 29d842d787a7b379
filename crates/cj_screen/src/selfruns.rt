//! A made-up catalogue that is screened in memory.
ghost use Rattle.std.specs.Prelude.{◌≡◌, [], ◌∷◌, IfErr, IfOk};
ghost use Rattle.cj_case.specs.Problems.{plain_problem};
ghost use Rattle.cj_formats.specs.declared.cert_format.CertFormat.TheVariants.{Full};
ghost use Rattle.cj_formats.specs.declared.cert_version.CertVersion.TheVariants.{One};
ghost use Rattle.cj_words.specs.Commands.{plain_selfrun};
ghost use Rattle.cj_words.specs.Settings.{plain_settings};
ghost use Rattle.cj_outputs.specs.Findings.{AreFound, summary_in};
ghost use Rattle.cj_outputs.specs.Outcome as spec;
ghost use Rattle.cj_outputs.specs.Outcome.{ComesOfSelfrun};
ghost use Rattle.cj_status.specs.Steps.{Gives};

use crate::screening::screen;
use cj_base::Limits;
use cj_case::Problem;
use cj_cert::written_certificate;
use cj_checker::{Answer, check};
use cj_formats::{CertFormat, CertVersion};
use cj_gen::catalogue;
use cj_inputs::prepare;
use cj_io::{CalmFolder, Gate};
use cj_outputs::{Behind, Findings, Lines, Wanted};
use cj_report::Tells;
use cj_status::Status;
use cj_words::{Selfrun, Settings, most_told};
use std::alloc::{AllocError, Global};
use std::sync::Wait;
use std::thread::Threads;

/// Screens a made-up catalogue over its whole span, and checks the certificate of what is found.
#[tactic(auto, unfolding(cj_outputs::specs::Outcome::outputs_of_selfrun))]
pub fn selfrun_catalogue<R: Threads + Wait + Sync, G: Gate + Sync>(
    rt: &R,
    alloc: Global,
    gate: &G,
    selfrun: &Selfrun,
) -> Result<Findings, Status>
    ensures ends { IfErr result ComesOfSelfrun }
    ensures told { Gives ⊥ (λ found. summary_in found ∷ []) result (spec.outputs_of_selfrun (plain_selfrun selfrun.now)) }
    ensures found { IfOk result AreFound }
{
    let problem = prepare_catalogue(rt, alloc, gate, selfrun)?;
    let wanted = Wanted {
        tells: Tells {
            sizes: false,
            coverage: false,
        },
        format: CertFormat::Full(CertVersion::One),
        workers: selfrun.workers,
        leaves: selfrun.cells,
        told: most_told(false),
        large: false,
    };
    let mut found = screen(rt, alloc, gate, problem, wanted)?;
    confirm(rt, alloc, &found, selfrun.workers)?;
    found.behind = Behind::CheckAccepted;
    Ok(found)
}

/// The problem of a made-up catalogue: its files are read as those of a folder are.
fn prepare_catalogue<R: Threads + Sync, G: Gate + Sync>(
    rt: &R,
    alloc: Global,
    gate: &G,
    selfrun: &Selfrun,
) -> Result<Problem, Status>
    ensures ends { IfErr result ComesOfSelfrun }
    ensures told { Gives ⊥ plain_problem result (spec.case_of_selfrun (plain_selfrun selfrun.now)) }
{
    let recipe = selfrun.recipe;
    let files = catalogue(alloc, recipe.seed, recipe.objects, recipe.minutes)?;
    let mut folder = CalmFolder::new(files);
    prepare(
        rt,
        alloc,
        gate,
        &mut folder,
        &settings_of(selfrun),
        selfrun.workers,
    )
}

/// The settings of a made-up catalogue.
fn settings_of(selfrun: &Selfrun) -> Settings<'static>
    ensures { plain_settings result ≡ spec.settings_of_selfrun (plain_selfrun selfrun.now) }
{
    Settings {
        threshold: selfrun.threshold,
        from: None,
        to: None,
        suffix: b".oem",
        as_hermite3: false,
        sizes: None,
        primaries: None,
        coverage: false,
        must_cover: false,
        large: false,
        limits: Limits::USUAL,
    }
}

/// Has the certificate of what is found checked. It is accepted.
fn confirm<R: Threads + Sync>(
    rt: &R,
    alloc: Global,
    found: &Findings,
    workers: u32,
) -> Result<(), AllocError>
    requires found { AreFound found.now }
    requires in_full { found.now.wanted.format ≡ Full One }
{
    let Lines::InFull {
        measured,
        leaves,
        ..
    } = &found.lines
    else {
        unreachable!()
    };
    let certificate = written_certificate(alloc, &found.problem, measured, leaves)?;
    match check(rt, alloc, &found.problem, &certificate, workers)? {
        Answer::Accepted => Ok(()),
        Answer::Refused { .. } => unreachable!(),
    }
}
