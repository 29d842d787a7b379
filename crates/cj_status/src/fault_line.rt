//! The line that says on standard error why a run failed.
ghost use Rattle.std.specs.Prelude.{◌≡◌, ◌++◌, IfOk, OnOk, codes};
ghost use Rattle.std.specs.Fmt.{decimal};
ghost use Rattle.cj_status.specs.Faults.{line_of, fault_body, refused_body, usage_text, limit_text, shown_byte, shown_name};
ghost use Rattle.cj_status.specs.Faults.{cause_rest, cause_text, certificate_text, cert_text, check_text, oem_text, kvn_text, epoch_text, primaries_text, sizes_text};

use crate::status::{CertificateCause, FileCause, LimitFault, Status};
use cj_base::Tick;
use cj_epoch::{EpochFault, epoch_text};
use cj_formats::{CertCause, CheckCause, OemCause, PrimariesCause, SizesCause};
use cj_kvn::KvnCause;
use cj_words::{UsageFault, option_name};
use std::alloc::{AllocError, Global};

/// The line for standard error, with its end; empty where all went well.
pub fn fault_text(alloc: Global, status: &Status) -> Result<Vec<u8>, AllocError>
    ensures { IfOk result (λ text. text.items ≡ line_of status.now) }
{
    let mut text = Vec::new(alloc);
    match status {
        Status::Ok => Ok(text),
        failed => {
            text.extend_from_slice(b"conj: ")?;
            push_fault(alloc, &mut text, failed)?;
            text.push(b'\n')?;
            Ok(text)
        }
    }
}

fn push_fault(alloc: Global, text: &mut Vec<u8>, status: &Status) -> Result<(), AllocError>
    ensures { OnOk result (text.new.items ≡ text.old.items ++ fault_body status.now) }
{
    match status {
        Status::Ok => Ok(()),
        Status::NotAccepted { line, cause } => push_place(
            alloc,
            text,
            b"not accepted: line ",
            *line,
            certificate_cause_name(*cause),
        ),
        Status::Usage(fault) => push_usage(text, fault),
        Status::BadFile { file, line, cause } => {
            push_refused(alloc, text, file.as_slice(), *line, *cause)
        }
        Status::ReadFault => text.extend_from_slice(b"read fault"),
        Status::WriteFault => text.extend_from_slice(b"write fault"),
        Status::Limit(fault) => push_limit(alloc, text, fault),
        Status::OutOfMemory => text.extend_from_slice(b"out of memory"),
    }
}

/// The file that was refused, its line, and what is wrong with it.
fn push_refused(
    alloc: Global,
    text: &mut Vec<u8>,
    file: &[u8],
    line: u32,
    cause: FileCause,
) -> Result<(), AllocError>
    ensures { OnOk result (text.new.items ≡ text.old.items ++ refused_body file.now line cause) }
{
    push_name(text, file)?;
    push_place(alloc, text, b": line ", line, cause_name(cause))?;
    push_rest(text, cause)
}

/// What a fault line names behind a cause.
fn push_rest(text: &mut Vec<u8>, cause: FileCause) -> Result<(), AllocError>
    ensures { OnOk result (text.new.items ≡ text.old.items ++ cause_rest cause) }
{
    match cause {
        FileCause::Uncovered { micros } => {
            text.push(b' ')?;
            text.extend_from_slice(&epoch_text(Tick::nearest(micros)))
        }
        FileCause::Oem(_)
        | FileCause::MixedFrames
        | FileCause::Sizes(_)
        | FileCause::NoSizes
        | FileCause::Primaries(_)
        | FileCause::NoPrimaries => Ok(()),
    }
}

/// A line of a file, behind these words, and what is wrong with it.
fn push_place(
    alloc: Global,
    text: &mut Vec<u8>,
    words: &[u8],
    line: u32,
    cause: &[u8],
) -> Result<(), AllocError>
    ensures { OnOk result (text.new.items ≡ text.old.items ++ (words.now ++ decimal line ++ codes ": " ++ cause.now)) }
{
    push_count(alloc, text, words, u64::from(line))?;
    text.extend_from_slice(b": ")?;
    text.extend_from_slice(cause)
}

/// The words that a fault line prints for a certificate or a report that is not accepted.
pub fn certificate_cause_name(cause: CertificateCause) -> &'static [u8]
    ensures { result.now ≡ certificate_text cause }
{
    match cause {
        CertificateCause::NoFile => b"NoFile",
        CertificateCause::Text(cause) => cert_name(cause),
        CertificateCause::Refused(cause) => check_name(cause),
        CertificateCause::NoReport => b"NoReport",
        CertificateCause::Report => b"Report",
    }
}

/// The name of a cause in the text of a certificate, behind the word for all such.
fn cert_name(cause: CertCause) -> &'static [u8]
    ensures { result.now ≡ codes "Text " ++ cert_text cause }
{
    match cause {
        CertCause::Form => b"Text Form",
        CertCause::Range => b"Text Range",
        CertCause::End => b"Text End",
    }
}

fn check_name(cause: CheckCause) -> &'static [u8]
    ensures { result.now ≡ check_text cause }
{
    match cause {
        CheckCause::Header => b"Header",
        CheckCause::SizeOf => b"SizeOf",
        CheckCause::PrimaryOf => b"PrimaryOf",
        CheckCause::ShellOf => b"ShellOf",
        CheckCause::BoxOf => b"BoxOf",
        CheckCause::Untiled => b"Untiled",
        CheckCause::Stranger => b"Stranger",
        CheckCause::NotFar => b"NotFar",
        CheckCause::NotNear => b"NotNear",
        CheckCause::NotBand => b"NotBand",
    }
}

/// The words that a fault line prints for a file that was refused, without the tick behind them.
pub fn cause_name(cause: FileCause) -> &'static [u8]
    ensures { result.now ≡ cause_text cause }
{
    match cause {
        FileCause::Oem(cause) => oem_name(cause),
        FileCause::MixedFrames => b"MixedFrames",
        FileCause::Sizes(cause) => sizes_name(cause),
        FileCause::NoSizes => b"NoSizes",
        FileCause::Primaries(cause) => primaries_name(cause),
        FileCause::NoPrimaries => b"NoPrimaries",
        FileCause::Uncovered { .. } => b"Uncovered",
    }
}

/// The name of a cause in a file of sizes, behind the word for all such.
fn sizes_name(cause: SizesCause) -> &'static [u8]
    ensures { result.now ≡ codes "Sizes " ++ sizes_text cause }
{
    match cause {
        SizesCause::Kvn(cause) => sizes_kvn_name(cause),
        SizesCause::Form => b"Sizes Form",
        SizesCause::Number => b"Sizes Number",
        SizesCause::Range => b"Sizes Range",
        SizesCause::Twice => b"Sizes Twice",
    }
}

/// The name of a cause in a file of primaries, behind the word for all such.
fn primaries_name(cause: PrimariesCause) -> &'static [u8]
    ensures { result.now ≡ codes "Primaries " ++ primaries_text cause }
{
    match cause {
        PrimariesCause::Kvn(cause) => primaries_kvn_name(cause),
        PrimariesCause::Form => b"Primaries Form",
        PrimariesCause::Twice => b"Primaries Twice",
        PrimariesCause::Unknown => b"Primaries Unknown",
    }
}

fn primaries_kvn_name(cause: KvnCause) -> &'static [u8]
    ensures { result.now ≡ codes "Primaries Kvn " ++ kvn_text cause }
{
    match cause {
        KvnCause::NotPrintable => b"Primaries Kvn NotPrintable",
        KvnCause::NoLineForm => b"Primaries Kvn NoLineForm",
    }
}

fn sizes_kvn_name(cause: KvnCause) -> &'static [u8]
    ensures { result.now ≡ codes "Sizes Kvn " ++ kvn_text cause }
{
    match cause {
        KvnCause::NotPrintable => b"Sizes Kvn NotPrintable",
        KvnCause::NoLineForm => b"Sizes Kvn NoLineForm",
    }
}

fn oem_name(cause: OemCause) -> &'static [u8]
    ensures { result.now ≡ oem_text cause }
{
    match cause {
        OemCause::Name => b"Name",
        OemCause::Kvn(cause) => kvn_name(cause),
        OemCause::Order => b"Order",
        OemCause::Version => b"Version",
        OemCause::Twice => b"Twice",
        OemCause::Unknown => b"Unknown",
        OemCause::Missing => b"Missing",
        OemCause::Interpolation => b"Interpolation",
        OemCause::ObjectChanged => b"ObjectChanged",
        OemCause::Center => b"Center",
        OemCause::Frame => b"Frame",
        OemCause::TimeSystem => b"TimeSystem",
        OemCause::Epoch(fault) => epoch_name(fault),
        OemCause::Fields => b"Fields",
        OemCause::Number => b"Number",
        OemCause::CoordinateRange => b"CoordinateRange",
        OemCause::RateRange => b"RateRange",
        OemCause::TimesFall => b"TimesFall",
        OemCause::StepTooLong => b"StepTooLong",
        OemCause::LeapSecond => b"LeapSecond",
        OemCause::TooFewNodes => b"TooFewNodes",
        OemCause::UseableSpan => b"UseableSpan",
        OemCause::SegmentsOverlap => b"SegmentsOverlap",
        OemCause::MatrixForm => b"MatrixForm",
    }
}

/// The name of a cause among lines, behind the word for all such.
fn kvn_name(cause: KvnCause) -> &'static [u8]
    ensures { result.now ≡ codes "Kvn " ++ kvn_text cause }
{
    match cause {
        KvnCause::NotPrintable => b"Kvn NotPrintable",
        KvnCause::NoLineForm => b"Kvn NoLineForm",
    }
}

/// The name of a fault of an epoch, behind the word for all such.
fn epoch_name(fault: EpochFault) -> &'static [u8]
    ensures { result.now ≡ codes "Epoch " ++ epoch_text fault }
{
    match fault {
        EpochFault::Form => b"Epoch Form",
        EpochFault::Range => b"Epoch Range",
        EpochFault::SecondSixty => b"Epoch SecondSixty",
        EpochFault::TooFine => b"Epoch TooFine",
    }
}

fn push_usage(text: &mut Vec<u8>, fault: &UsageFault) -> Result<(), AllocError>
    ensures { OnOk result (text.new.items ≡ text.old.items ++ (codes "usage: " ++ usage_text fault.now)) }
{
    match fault {
        UsageFault::Words => text.extend_from_slice(b"usage: Words"),
        UsageFault::Value { option } => {
            text.extend_from_slice(b"usage: Value ")?;
            text.extend_from_slice(option_name(*option))
        }
    }
}

fn push_limit(alloc: Global, text: &mut Vec<u8>, fault: &LimitFault) -> Result<(), AllocError>
    ensures { OnOk result (text.new.items ≡ text.old.items ++ (codes "limit: " ++ limit_text fault.now)) }
{
    match fault {
        LimitFault::Objects { count } => {
            push_count(alloc, text, b"limit: Objects ", u64::from(*count))
        }
        LimitFault::FileBytes { file } => {
            text.extend_from_slice(b"limit: FileBytes ")?;
            push_name(text, file.as_slice())
        }
        LimitFault::Nodes { count } => push_count(alloc, text, b"limit: Nodes ", *count),
        LimitFault::Window { length } => push_count(alloc, text, b"limit: Window ", *length),
        LimitFault::Slots { count } => push_count(alloc, text, b"limit: Slots ", *count),
        LimitFault::Cells { limit } => push_count(alloc, text, b"limit: Cells ", *limit),
        LimitFault::Told { limit } => push_count(alloc, text, b"limit: Told ", *limit),
    }
}

/// Appends the name of a file, of which each byte that is not printable is shown as `?`.
pub fn push_name(text: &mut Vec<u8>, name: &[u8]) -> Result<(), AllocError>
    ensures { OnOk result (text.new.items ≡ text.old.items ++ shown_name name.now) }
{
    for byte in name {
        text.push(shown(*byte))?;
    }
    Ok(())
}

fn shown(byte: u8) -> u8
    ensures { result ≡ shown_byte byte }
{
    if 32 <= byte && byte <= 126 {
        byte
    } else {
        b'?'
    }
}

/// A number behind its name.
fn push_count(alloc: Global, text: &mut Vec<u8>, name: &[u8], number: u64) -> Result<(), AllocError>
    ensures { OnOk result (text.new.items ≡ text.old.items ++ (name.now ++ decimal number)) }
{
    text.extend_from_slice(name)?;
    push_number(alloc, text, number)
}

fn push_number(alloc: Global, text: &mut Vec<u8>, number: u64) -> Result<(), AllocError>
    ensures { OnOk result (text.new.items ≡ text.old.items ++ decimal number) }
{
    let digits = format!(in alloc; "{number}")?;
    text.extend_from_slice(digits.as_bytes())
}
