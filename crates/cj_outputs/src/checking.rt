//! From the files of a folder to whether the certificate that is named is accepted, and the report beside it.
ghost use Rattle.std.specs.Prelude.{◌≡◌, ◌≢◌, [], ◌∷◌, ◌≤◌, List, Some, Ok, Err, ◌↔◌, IfOk, IfErr, OnOk, length};
ghost use Rattle.cj_io.specs.Faults.{Rose};
ghost use Rattle.cj_io.specs.declared.file.FileBytes.{FileBytes};
ghost use Rattle.cj_case.specs.Problems.{plain_problem};
ghost use Rattle.cj_checker.specs.Answers.{failure_of};
ghost use Rattle.cj_cert.specs.Splits.{CellsSplit};
ghost use Rattle.cj_cert_text.specs.Readers.{Gives as Reads};
ghost use Rattle.cj_words.specs.Limits.{MOST_CERTIFICATE_BYTES};
ghost use Rattle.cj_words.specs.Commands.{plain_checking};
ghost use Rattle.cj_outputs.specs.Checks.{AcceptedText, Vouches};
ghost use Rattle.cj_outputs.specs.Either as either;
ghost use Rattle.cj_outputs.specs.Either.{AnySplits, FitsIn, HasFewLines, IsAcceptedFor, MayRead, NamesItsObjects, cells_in, text_in};
ghost use Rattle.cj_outputs.specs.EitherKept.{plain_any};
ghost use Rattle.cj_outputs.specs.Outcome as spec;
ghost use Rattle.cj_status.specs.Steps.{Gives, ComesBetween};

use crate::any_certificate::AnyCertificate;
use crate::differing::tell_differences;
use crate::processors::processors;
use crate::reporting::tells_of;
use crate::vouching::accept_report;
use cj_brief::acceptance_in_brief;
use cj_brief_checker::check_in_brief;
use cj_case::Problem;
use cj_cert::acceptance;
use cj_cert_text::{CertFault, read_brief, read_cert};
use cj_checker::{Answer, check};
use cj_inputs::{CheckInputs, prepare_check};
use cj_io::{Folder, Gate};
use cj_status::{CertificateCause, Status};
use cj_words::Checking;
use std::alloc::{AllocError, Global};
use std::thread::Threads;

/// Checks the certificate that is named, and the report, where one is named. It answers an error where the certificate is not accepted for the
/// files, and where the report is not that of its cells.
#[tactic(auto, unfolding(crate::specs::Outcome::outputs_checked))]
pub fn check_certificate<R: Threads + Sync, F: Folder, G: Gate + Sync>(
    rt: &R,
    alloc: Global,
    gate: &G,
    folder: &mut F,
    checking: &Checking,
) -> Result<(), Status>
    ensures between { IfErr result ComesBetween }
    ensures read { result ≡ Err Status.ReadFault → Rose (F.faults folder.old) (F.faults folder.new) }

    ensures told { (files : List FileBytes) → F.files folder.old ≡ Some files
        → Gives (Rose (F.faults folder.old) (F.faults folder.new)) (λ done. spec.accepted_output ∷ []) result (spec.outputs_checked files (plain_checking checking.now)) }
    ensures vouches { (files : List FileBytes) → F.files folder.old ≡ Some files → OnOk result (Vouches (plain_checking checking.now) files) }

    ensures files { F.files folder.new ≡ F.files folder.old }
    ensures later { F.faults folder.old ≤ F.faults folder.new }
{
    let CheckInputs {
        problem,
        certificate,
        report,
    } = prepare_check(rt, alloc, gate, folder, checking, processors(rt))?;
    let accepted = accept(rt, alloc, gate, &problem, certificate, checking.brief)?;
    let cells = accepted.into_cells()?;
    accept_report(
        rt,
        alloc,
        gate,
        &problem,
        tells_of(&checking.settings),
        &cells,
        checking.settings.limits.leaves,
        report,
    )
}

/// Reads a certificate that is accepted for a problem, which may be in brief where that is asked. Of one that is refused the gate is told in what it
/// differs from the problem.
#[tactic(auto, unfolding(crate::specs::Outcome::accepting))]
pub fn accept<R: Threads + Sync, G: Gate + Sync>(
    rt: &R,
    alloc: Global,
    gate: &G,
    problem: &Problem,
    bytes: Vec<u8>,
    brief: bool,
) -> Result<AnyCertificate, Status>
    requires { length bytes.items ≤ MOST_CERTIFICATE_BYTES }
    ensures between { IfErr result ComesBetween }
    ensures read { result ≢ Err Status.ReadFault }
    ensures told { Gives ⊥ plain_any result (spec.accepting brief (plain_problem problem.now) bytes.items) }
    ensures accepted { OnOk result (AcceptedText (plain_problem problem.now) bytes.items) }
    ensures may { IfOk result (λ c. MayRead brief (plain_any c)) }
    ensures only { IfOk result (λ c. (bytes.items ≡ text_in (plain_any c)) × FitsIn (plain_any c)) }
    ensures holds { IfOk result (λ c. IsAcceptedFor (plain_problem problem.now) (plain_any c)) }
    ensures objects { IfOk result (λ c. NamesItsObjects (plain_any c)) }
    ensures split { IfOk result (λ c. CellsSplit (plain_problem problem.now) (cells_in (plain_any c))) }
{
    let certificate = read(alloc, bytes, brief)?;
    match judge(rt, alloc, problem, &certificate)? {
        Answer::Accepted => Ok(certificate),
        Answer::Refused { line, cause } => {
            tell_differences(gate, problem, certificate.stated(), cause);
            Err(Status::NotAccepted {
                line,
                cause: CertificateCause::Refused(cause),
            })
        }
    }
}

/// Whether a certificate is accepted for a problem.
fn judge<R: Threads + Sync>(
    rt: &R,
    alloc: Global,
    problem: &Problem,
    certificate: &AnyCertificate,
) -> Result<Answer, AllocError>
    requires { HasFewLines (plain_any certificate.now) }
    ensures value { IfOk result (λ answer. failure_of answer ≡ either.any_failure (plain_problem problem.now) (plain_any certificate.now)) }
    ensures exact { IfOk result (λ answer. (answer ≡ Answer.Accepted) ↔ IsAcceptedFor (plain_problem problem.now) (plain_any certificate.now)) }
    ensures law { AnySplits (plain_problem problem.now) }
{
    acceptance(problem);
    acceptance_in_brief(problem);
    match certificate {
        AnyCertificate::InFull(certificate) => {
            check(rt, alloc, problem, certificate, processors(rt))
        }
        AnyCertificate::InBrief(certificate) => {
            check_in_brief(rt, alloc, problem, certificate, processors(rt))
        }
    }
}

/// The certificate that a text says, in brief where that is asked and it begins so. The text is dropped.
fn read(alloc: Global, bytes: Vec<u8>, brief: bool) -> Result<AnyCertificate, Status>
    requires { length bytes.items ≤ MOST_CERTIFICATE_BYTES }
    ensures between { IfErr result ComesBetween }
    ensures read { result ≢ Err Status.ReadFault }
    ensures told { Gives ⊥ plain_any result (spec.said_or (either.any_reading brief bytes.items)) }
    ensures may { IfOk result (λ c. MayRead brief (plain_any c)) }
    ensures only { IfOk result (λ c. (bytes.items ≡ text_in (plain_any c)) × FitsIn (plain_any c)) }
    ensures few { IfOk result (λ c. HasFewLines (plain_any c)) }
{
    match read_either(alloc, &bytes, brief) {
        Ok(certificate) => Ok(certificate),
        Err(CertFault::Memory) => Err(Status::OutOfMemory),
        Err(CertFault::At { line, cause }) => Err(Status::NotAccepted {
            line,
            cause: CertificateCause::Text(cause),
        }),
    }
}

/// The certificate of either kind that a text says.
fn read_either(alloc: Global, bytes: &[u8], brief: bool) -> Result<AnyCertificate, CertFault>
    requires { length bytes.now ≤ MOST_CERTIFICATE_BYTES }
    ensures value { Reads plain_any result (either.any_reading brief bytes.now) }
    ensures may { IfOk result (λ c. MayRead brief (plain_any c)) }
    ensures only { IfOk result (λ c. (bytes.now ≡ text_in (plain_any c)) × FitsIn (plain_any c)) }
    ensures few { IfOk result (λ c. HasFewLines (plain_any c)) }
{
    if brief && begins_in_brief(bytes) {
        Ok(AnyCertificate::InBrief(read_brief(alloc, bytes)?))
    } else {
        Ok(AnyCertificate::InFull(read_cert(alloc, bytes)?))
    }
}

/// Whether the bytes begin as a certificate in brief does.
fn begins_in_brief(bytes: &[u8]) -> bool
    ensures { result ≡ either.begins_in_brief bytes.now }
{
    bytes.starts_with(b"CONJ-CERT 3")
}
