//! From the files of a folder to a certificate, the problem for which it is to be checked, and the report beside it.
ghost use Rattle.std.specs.Prelude.{◌≡◌, ◌<◌, ◌≤◌, ◌^◌, List, Some, Err, IfErr, IfOk, IfSome, length, option_map};
ghost use Rattle.std.specs.Option.{option_copied};
ghost use Rattle.cj_io.specs.Faults.{Rose};
ghost use Rattle.cj_io.specs.Files.{names_of};
ghost use Rattle.cj_io.specs.declared.file.FileBytes.{FileBytes};
ghost use Rattle.cj_words.specs.Commands.{plain_checking};
ghost use Rattle.cj_words.specs.Limits.{MOST_CERTIFICATE_BYTES};
ghost use Rattle.cj_inputs.specs.CheckInputs as spec;
ghost use Rattle.cj_status.specs.Steps.{Gives, ComesBetween};

use crate::check_inputs::CheckInputs;
use crate::object_sizes::first_named;
use crate::preparing_updates::prepare_with_updates;
use crate::reading::read_within;
use cj_io::{Folder, Gate, Name};
use cj_status::{CertificateCause, Status};
use cj_words::{Checking, most_certificate_bytes};
use std::alloc::Global;
use std::thread::Threads;

/// Prepares the problem that the settings ask for, then reads the first file with the certificate's name, and then the first with the
/// report's, where one is named. The ephemerides are parsed by so many workers.
#[tactic(auto, unfolding(crate::specs::CheckInputs::inputs_asked))]
pub fn prepare_check<R: Threads + Sync, F: Folder, G: Gate + Sync>(
    rt: &R,
    alloc: Global,
    gate: &G,
    folder: &mut F,
    checking: &Checking,
    workers: u32,
) -> Result<CheckInputs, Status>
    ensures between { IfErr result ComesBetween }
    ensures read { result ≡ Err Status.ReadFault → Rose (F.faults folder.old) (F.faults folder.new) }
    ensures told { (files : List FileBytes) → F.files folder.old ≡ Some files
        → Gives (Rose (F.faults folder.old) (F.faults folder.new)) spec.plain_inputs result (spec.inputs_asked files (plain_checking checking.now)) }
    ensures small { IfOk result (λ inputs. length inputs.certificate.items ≤ MOST_CERTIFICATE_BYTES) }
    ensures small_report { IfOk result (λ inputs. IfSome inputs.report (λ report. length report.items ≤ MOST_CERTIFICATE_BYTES)) }

    ensures files { F.files folder.new ≡ F.files folder.old }
    ensures later { F.faults folder.old ≤ F.faults folder.new }
{
    let names = folder.names(alloc)?;
    let problem = prepare_with_updates(
        rt,
        alloc,
        gate,
        folder,
        &names,
        &checking.settings,
        checking.update,
        workers,
    )?;
    let most = most_certificate_bytes(checking.settings.large);
    let certificate = read_named(
        alloc,
        folder,
        &names,
        checking.certificate,
        CertificateCause::NoFile,
        most,
    )?;
    let report = read_report(alloc, folder, &names, checking.report, most)?;
    Ok(CheckInputs {
        problem,
        certificate,
        report,
    })
}

/// The bytes of the first file with the report's name, where one is named, of which there are at most so many. These are the names of the folder.
fn read_report<F: Folder>(
    alloc: Global,
    folder: &mut F,
    names: &[Name],
    report: Option<&[u8]>,
    most: u64,
) -> Result<Option<Vec<u8>>, Status>
    requires many { length names.now < 2 ^ 32 }
    requires count { F.count folder.old ≡ length names.now }

    ensures between { IfErr result ComesBetween }
    ensures read { result ≡ Err Status.ReadFault → Rose (F.faults folder.old) (F.faults folder.new) }
    ensures told { (files : List FileBytes) → F.files folder.old ≡ Some files → names.now ≡ names_of files
        → Gives (Rose (F.faults folder.old) (F.faults folder.new)) (λ report. option_map (λ bytes. bytes.items) report) result
        (spec.report_if_named most files (option_copied report.entry)) }
    ensures small { IfOk result (λ report. IfSome report (λ bytes. length bytes.items ≤ most)) }

    ensures files { F.files folder.new ≡ F.files folder.old }
    ensures later { F.faults folder.old ≤ F.faults folder.new }
{
    let Some(name) = report else {
        return Ok(None);
    };
    let bytes = read_named(alloc, folder, names, name, CertificateCause::NoReport, most)?;
    Ok(Some(bytes))
}

/// The bytes of the first file with a name, of which there are at most so many; where there is none, this is the cause. These are the names of
/// the folder.
fn read_named<F: Folder>(
    alloc: Global,
    folder: &mut F,
    names: &[Name],
    name: &[u8],
    missing: CertificateCause,
    most: u64,
) -> Result<Vec<u8>, Status>
    requires many { length names.now < 2 ^ 32 }
    requires count { F.count folder.old ≡ length names.now }

    ensures between { IfErr result ComesBetween }
    ensures read { result ≡ Err Status.ReadFault → Rose (F.faults folder.old) (F.faults folder.new) }
    ensures told { (files : List FileBytes) → F.files folder.old ≡ Some files → names.now ≡ names_of files
        → Gives (Rose (F.faults folder.old) (F.faults folder.new)) (λ bytes. bytes.items) result (spec.input_named most missing files name.now) }
    ensures small { IfOk result (λ bytes. length bytes.items ≤ most) }

    ensures count { F.count folder.new ≡ F.count folder.old }
    ensures files { F.files folder.new ≡ F.files folder.old }
    ensures later { F.faults folder.old ≤ F.faults folder.new }
{
    match first_named(names, name) {
        Some(number) => Ok(read_within(alloc, folder, number, name, most)?),
        None => Err(Status::NotAccepted {
            line: 0,
            cause: missing,
        }),
    }
}
