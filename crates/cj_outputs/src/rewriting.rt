//! From the files of a folder to the certificate that is named, one in full in version 2, where it is accepted.
ghost use Rattle.std.specs.Prelude.{◌≡◌, ◌≤◌, List, Some, Ok, Err, IfOk, IfErr};
ghost use Rattle.cj_io.specs.Faults.{Rose};
ghost use Rattle.cj_io.specs.Parts.{joined};
ghost use Rattle.cj_io.specs.declared.file.FileBytes.{FileBytes};
ghost use Rattle.cj_case.specs.Problems.{plain_problem};
ghost use Rattle.cj_cert.specs.Accepted.{Accepted};
ghost use Rattle.cj_outputs.specs.Either.{IsAcceptedFor, any_renewed, text_in};
ghost use Rattle.cj_outputs.specs.EitherKept.{plain_any};
ghost use Rattle.cj_cert.specs.Certificates.{plain_certificate};
ghost use Rattle.cj_blocks.specs.Rewritten as cert;
ghost use Rattle.cj_words.specs.Commands.{plain_checking};
ghost use Rattle.cj_outputs.specs.Findings.{ended};
ghost use Rattle.cj_outputs.specs.Outcome as spec;
ghost use Rattle.cj_outputs.specs.Outcome.{ComesOfPuts, Leaves};
ghost use Rattle.cj_outputs.specs.Rewrites.{Renews};
ghost use Rattle.cj_status.specs.Steps.{Gives, ComesBetween};

use crate::any_certificate::AnyCertificate;
use crate::checking::accept;
use crate::later::accepted_later;
use crate::processors::processors;
use crate::putting::{put, put_parts};
use cj_blocks::{in_version_2, listed_shells};
use cj_case::Problem;
use cj_cert::Certificate;
use cj_cert_text::{brief_parts, cert_parts};
use cj_inputs::{CheckInputs, prepare_check};
use cj_io::{Folder, Gate, Shelf};
use cj_sieve::kept_pairs;
use cj_status::Status;
use cj_words::Checking;
use std::alloc::{AllocError, Global};
use std::thread::Threads;

/// The certificate that is named, one in full in version 2. It answers an error where the certificate is not accepted for the files.
#[tactic(auto, unfolding(crate::specs::Outcome::outputs_rewritten))]
pub fn rewrite_certificate<R: Threads + Sync, F: Folder, G: Gate + Sync>(
    rt: &R,
    alloc: Global,
    gate: &G,
    folder: &mut F,
    checking: &Checking,
) -> Result<AnyCertificate, Status>
    ensures between { IfErr result ComesBetween }
    ensures read { result ≡ Err Status.ReadFault → Rose (F.faults folder.old) (F.faults folder.new) }

    ensures told { (files : List FileBytes) → F.files folder.old ≡ Some files
        → Gives (Rose (F.faults folder.old) (F.faults folder.new)) (λ c. spec.outputs_renewed (plain_any c)) result
        (spec.outputs_rewritten files (plain_checking checking.now)) }
    ensures renews { (files : List FileBytes) → F.files folder.old ≡ Some files → IfOk result (λ c. Renews (plain_checking checking.now) files (plain_any c)) }

    ensures files { F.files folder.new ≡ F.files folder.old }
    ensures later { F.faults folder.old ≤ F.faults folder.new }
{
    let CheckInputs {
        problem,
        certificate,
        ..
    } = prepare_check(rt, alloc, gate, folder, checking, processors(rt))?;
    let accepted = accept(rt, alloc, gate, &problem, certificate, checking.brief)?;
    accepted_later(&problem);
    Ok(renewed(alloc, &problem, accepted)?)
}

/// What an accepted certificate is rewritten to.
fn renewed(
    alloc: Global,
    problem: &Problem,
    certificate: AnyCertificate,
) -> Result<AnyCertificate, AllocError>
    requires { IsAcceptedFor (plain_problem problem.now) (plain_any certificate) }
    ensures value { IfOk result (λ c. plain_any c ≡ any_renewed (plain_problem problem.now) (plain_any certificate)) }
    ensures accepted { IfOk result (λ c. IsAcceptedFor (plain_problem problem.now) (plain_any c)) }
{
    match certificate {
        AnyCertificate::InFull(certificate) => {
            let certificate = by_blocks(alloc, problem, certificate)?;
            Ok(AnyCertificate::InFull(certificate))
        }
        AnyCertificate::InBrief(certificate) => Ok(AnyCertificate::InBrief(certificate)),
    }
}

/// An accepted certificate in version 2.
fn by_blocks(
    alloc: Global,
    problem: &Problem,
    certificate: Certificate,
) -> Result<Certificate, AllocError>
    requires { Accepted (plain_problem problem.now) (plain_certificate certificate) }
    ensures value { IfOk result (λ c. plain_certificate c ≡ cert.in_version_2 (plain_problem problem.now) (plain_certificate certificate)) }
    ensures accepted { IfOk result (λ c. Accepted (plain_problem problem.now) (plain_certificate c)) }
{
    let shells = listed_shells(alloc, &certificate)?;
    let kept = kept_pairs(
        alloc,
        &shells,
        problem.sizes.as_slice(),
        &problem.primaries,
        problem.threshold,
    )?;
    in_version_2(alloc, problem, certificate, &kept)
}

/// Puts a certificate that was rewritten, and that it was.
pub fn put_rewritten<R: Threads + Sync, S: Shelf>(
    rt: &R,
    alloc: Global,
    shelf: &mut S,
    certificate: &AnyCertificate,
) -> Result<(), Status>
    ensures comes { IfErr result ComesOfPuts }
    ensures write { result ≡ Err Status.WriteFault → Rose (S.faults shelf.old) (S.faults shelf.new) }
    ensures leaves { (old : List FileBytes) → S.outputs shelf.old ≡ Some old
        → Leaves (ended result) (Ok (spec.outputs_renewed (plain_any certificate.now))) old (S.outputs shelf.new) }
    ensures later { S.faults shelf.old ≤ S.faults shelf.new }
{
    let parts = text_parts(rt, alloc, certificate)?;
    put_parts(alloc, shelf, b"screen.cert2", &parts)?;
    put(alloc, shelf, b"-", b"REWRITTEN\n")
}

/// The text of a certificate, in parts.
fn text_parts<R: Threads + Sync>(
    rt: &R,
    alloc: Global,
    certificate: &AnyCertificate,
) -> Result<Vec<Vec<u8>>, AllocError>
    ensures { IfOk result (λ parts. joined parts.items ≡ text_in (plain_any certificate.now)) }
{
    match certificate {
        AnyCertificate::InFull(certificate) => cert_parts(rt, alloc, certificate, processors(rt)),
        AnyCertificate::InBrief(certificate) => brief_parts(rt, alloc, certificate, processors(rt)),
    }
}
