//! Putting what is due of the findings onto a shelf, output by output.
ghost use Rattle.std.specs.Prelude.{◌≡◌, ◌≤◌, List, [], ◌∷◌, ◌++◌, Some, Err, IfErr, IfOk, OnOk};
ghost use Rattle.cj_io.specs.Faults.{Rose};
ghost use Rattle.cj_io.specs.Parts.{joined};
ghost use Rattle.cj_io.specs.declared.file.FileBytes.{FileBytes};
ghost use Rattle.cj_formats.specs.declared.cert_format.CertFormat.TheVariants.{Full, Brief};
ghost use Rattle.cj_formats.specs.declared.cert_version.CertVersion.TheVariants.{One, Two};
ghost use Rattle.cj_case.specs.Problems.{plain_problem};
ghost use Rattle.cj_cert.specs.Certificates.{plain_certificate};
ghost use Rattle.cj_blocks.specs.Rewritten.{written_in};
ghost use Rattle.cj_cert_text.specs.TextLeft.{text_left};
ghost use Rattle.cj_outputs.specs.Findings.{AreFound, cert_in, ended, lines_of, outputs_in, report_in, summary_in};
ghost use Rattle.cj_outputs.specs.Lines.{AreInBrief, AreInFull};
ghost use Rattle.cj_outputs.specs.Origins.{plain_origin};
ghost use Rattle.cj_outputs.specs.Outcome as spec;
ghost use Rattle.cj_outputs.specs.Outcome.{ComesOfPuts, Leaves, cert_bytes};
ghost use Rattle.cj_words.specs.Settings.{plain_settings};

use crate::coverage::push_coverage;
use crate::findings::{Behind, Findings};
use crate::lines::Lines;
use crate::messages::put_messages;
use crate::origin::Origin;
use crate::putting::{put, put_made, put_parts};
use cj_blocks::certificate_in_blocks;
use cj_case::{Leaf, Measured, Problem, Shell};
use cj_cert::Certificate;
use cj_cert_text::{CertificateText, cert_parts};
use cj_formats::CertVersion;
use cj_io::{Shelf, StreamShelf};
use cj_report::{Tells, push_kept, report_text, summary_text};
use cj_sieve::kept_pairs;
use cj_status::Status;
use cj_words::Settings;
use std::alloc::{AllocError, Global};
use std::thread::Threads;

/// Makes and puts the outputs one after another, messages with this origin. Each is dropped after its put.
pub fn put_outputs<R: Threads + Sync, S: StreamShelf>(
    rt: &R,
    alloc: Global,
    shelf: &mut S,
    found: &Findings,
    origin: Origin,
) -> Result<(), Status>
    requires { AreFound found.now }
    ensures comes { IfErr result ComesOfPuts }
    ensures write { result ≡ Err Status.WriteFault → Rose (S.faults shelf.old) (S.faults shelf.new) }
    ensures leaves { (old : List FileBytes) → S.outputs shelf.old ≡ Some old
        → Leaves (ended result) (Ok (outputs_in (plain_origin origin.entry) found.now)) old (S.outputs shelf.new) }
    ensures later { S.faults shelf.old ≤ S.faults shelf.new }
{
    put_report(alloc, shelf, found)?;
    put_certificate(rt, alloc, shelf, found)?;
    put_messages(alloc, shelf, found, origin)?;
    put_summary(alloc, shelf, found)
}

/// Puts the report.
fn put_report<S: Shelf>(alloc: Global, shelf: &mut S, found: &Findings) -> Result<(), Status>
    requires { AreFound found.now }
    ensures comes { IfErr result ComesOfPuts }
    ensures write { result ≡ Err Status.WriteFault → Rose (S.faults shelf.old) (S.faults shelf.new) }
    ensures leaves { (old : List FileBytes) → S.outputs shelf.old ≡ Some old → Leaves (ended result) (Ok (report_in found.now ∷ [])) old (S.outputs shelf.new) }
    ensures later { S.faults shelf.old ≤ S.faults shelf.new }
{
    let report = report_text(
        alloc,
        &found.problem,
        found.wanted.tells,
        found.lines.met(),
        &found.encounters,
        &found.closest,
        &found.messages,
    )?;
    put(alloc, shelf, b"screen.report", &report)
}

/// Puts the certificate in the format that was asked.
fn put_certificate<R: Threads + Sync, S: StreamShelf>(
    rt: &R,
    alloc: Global,
    shelf: &mut S,
    found: &Findings,
) -> Result<(), Status>
    requires { AreFound found.now }
    ensures comes { IfErr result ComesOfPuts }
    ensures write { result ≡ Err Status.WriteFault → Rose (S.faults shelf.old) (S.faults shelf.new) }
    ensures leaves { (old : List FileBytes) → S.outputs shelf.old ≡ Some old → Leaves (ended result) (Ok (cert_in found.now ∷ [])) old (S.outputs shelf.new) }
    ensures later { S.faults shelf.old ≤ S.faults shelf.new }
{
    let Findings {
        problem,
        wanted,
        lines,
        ..
    } = found;
    match lines {
        Lines::InFull {
            version: CertVersion::One,
            measured,
            leaves,
        } => {
            let mut text = certificate_text(alloc, problem, measured, leaves, wanted.workers)?;
            put_made(rt, alloc, shelf, b"screen.cert", &mut text)
        }
        Lines::InFull {
            version: CertVersion::Two,
            measured,
            leaves,
        } => {
            let parts = parts_by_blocks(rt, alloc, problem, measured, leaves, wanted.workers)?;
            put_parts(alloc, shelf, b"screen.cert", &parts)
        }
        Lines::InBrief { shells, told, .. } => {
            let mut text = text_in_brief(alloc, problem, shells, told, wanted.workers)?;
            put_made(rt, alloc, shelf, b"screen.cert", &mut text)
        }
    }
}

/// The text of the certificate of a problem in version 1, which is still to be made.
fn certificate_text<'f>(
    alloc: Global,
    problem: &'f Problem,
    measured: &'f Measured,
    leaves: &'f [Leaf],
    workers: u32,
) -> Result<CertificateText<'f>, AllocError>
    requires { AreInFull (plain_problem problem.now) measured.now leaves.now }
    ensures { IfOk result (λ text. text_left text ≡ cert_bytes (Full One) (plain_problem problem.now)) }
{
    CertificateText::new(alloc, problem, measured, leaves, workers)
}

/// The text of the certificate in version 2, in parts.
fn parts_by_blocks<R: Threads + Sync>(
    rt: &R,
    alloc: Global,
    problem: &Problem,
    measured: &Measured,
    leaves: &[Leaf],
    workers: u32,
) -> Result<Vec<Vec<u8>>, AllocError>
    requires { AreInFull (plain_problem problem.now) measured.now leaves.now }
    ensures { IfOk result (λ parts. joined parts.items ≡ cert_bytes (Full Two) (plain_problem problem.now)) }
{
    let certificate = certificate_by_blocks(alloc, problem, measured, leaves)?;
    cert_parts(rt, alloc, &certificate, workers)
}

/// The text of the certificate in brief, which is still to be made.
fn text_in_brief<'f>(
    alloc: Global,
    problem: &Problem,
    shells: &[Option<Shell>],
    told: &'f [Leaf],
    workers: u32,
) -> Result<CertificateText<'f>, AllocError>
    requires { AreInBrief (plain_problem problem.now) shells.now told.now }
    ensures { IfOk result (λ text. text_left text ≡ cert_bytes Brief (plain_problem problem.now)) }
{
    CertificateText::in_brief(alloc, problem, shells, told, workers)
}

/// The certificate in version 2, with blocks by the pairs that are kept.
fn certificate_by_blocks(
    alloc: Global,
    problem: &Problem,
    measured: &Measured,
    leaves: &[Leaf],
) -> Result<Certificate, AllocError>
    requires { AreInFull (plain_problem problem.now) measured.now leaves.now }
    ensures { IfOk result (λ cert. plain_certificate cert ≡ written_in Two (plain_problem problem.now)) }
{
    let kept = kept_pairs(
        alloc,
        &measured.shells,
        problem.sizes.as_slice(),
        &problem.primaries,
        problem.threshold,
    )?;
    certificate_in_blocks(alloc, problem, measured, &kept, leaves)
}

/// Puts the summary, and what stands behind it.
pub fn put_summary<S: Shelf>(alloc: Global, shelf: &mut S, found: &Findings) -> Result<(), Status>
    requires { AreFound found.now }
    ensures comes { IfErr result ComesOfPuts }
    ensures write { result ≡ Err Status.WriteFault → Rose (S.faults shelf.old) (S.faults shelf.new) }
    ensures leaves { (old : List FileBytes) → S.outputs shelf.old ≡ Some old → Leaves (ended result) (Ok (summary_in found.now ∷ [])) old (S.outputs shelf.new) }
    ensures later { S.faults shelf.old ≤ S.faults shelf.new }
{
    let mut summary = summary_text(alloc, &found.counts)?;
    push_behind(&mut summary, found.behind)?;
    push_coverage(&mut summary, found.wanted.tells, &found.problem)?;
    put(alloc, shelf, b"-", &summary)
}

/// Adds what stands behind a summary.
fn push_behind(text: &mut Vec<u8>, behind: Behind) -> Result<(), AllocError>
    ensures { OnOk result (text.new.items ≡ text.old.items ++ lines_of behind) }
{
    match behind {
        Behind::Nothing => Ok(()),
        Behind::CheckAccepted => text.extend_from_slice(b"CHECK ACCEPTED\n"),
        Behind::Kept(pairs) => push_kept(text, pairs),
    }
}

/// What the report tells: the sizes where the command line names a file of them, and what objects cover where it asks for this.
pub fn tells_of(settings: &Settings) -> Tells
    ensures { result ≡ spec.tells_of (plain_settings settings.now) }
{
    Tells {
        sizes: settings.sizes.is_some(),
        coverage: settings.coverage,
    }
}
