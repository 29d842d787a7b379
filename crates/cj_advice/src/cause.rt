//! The causes that fault lines tell, and the words for them.
ghost use Rattle.std.specs.Prelude.{◌≡◌, IfSome};
ghost use Rattle.cj_advice.specs.Causes as spec;
ghost use Rattle.cj_advice.specs.Causes.{Tells};

use cj_formats::{OemCause, PrimariesCause, SizesCause};
use cj_status::{
    CertificateCause, FileCause, LimitFault, Status, cause_name, certificate_cause_name,
};
use cj_words::UsageFault;

/// What a fault line tells, without the file, the line, the option or the number that it names.
#[derive(Clone, Copy, Debug, PartialEq, Eq)]
pub enum Cause {
    /// The words are not of the grammar of a command.
    Words,
    /// The value of an option is out of its range.
    Value,
    /// A file was refused.
    File(FileReason),
    /// The certificate, or the report beside it, is not accepted.
    Certificate(CertificateCause),
    /// A limit was exceeded.
    Limit(LimitCause),
    ReadFault,
    WriteFault,
    OutOfMemory,
}

/// Why a file was refused, without the tick that a fault line names.
#[derive(Clone, Copy, Debug, PartialEq, Eq)]
pub enum FileReason {
    /// It is not an ephemeris that can be read.
    Oem(OemCause),
    /// Its frame is not that of the first file.
    MixedFrames,
    /// It is not a file of sizes.
    Sizes(SizesCause),
    /// No file has the name that was given for the file of sizes.
    NoSizes,
    /// It is not a file of primaries.
    Primaries(PrimariesCause),
    /// No file has the name that was given for the file of primaries.
    NoPrimaries,
    /// Its object does not cover the window.
    Uncovered,
}

/// What is beyond its limit, without its number.
#[derive(Clone, Copy, Debug, PartialEq, Eq)]
pub enum LimitCause {
    Objects,
    FileBytes,
    Nodes,
    Window,
    Slots,
    Cells,
    Told,
}

/// The words of a cause, as fault lines print them.
pub fn cause_word(cause: Cause) -> &'static [u8]
    ensures { result.now ≡ spec.word_of cause }
{
    match cause {
        Cause::Words => b"Words",
        Cause::Value => b"Value",
        Cause::File(reason) => file_word(reason),
        Cause::Certificate(cause) => certificate_cause_name(cause),
        Cause::Limit(limit) => limit_word(limit),
        Cause::ReadFault => b"read fault",
        Cause::WriteFault => b"write fault",
        Cause::OutOfMemory => b"out of memory",
    }
}

fn file_word(reason: FileReason) -> &'static [u8]
    ensures { result.now ≡ spec.file_word reason }
{
    match reason {
        FileReason::Oem(cause) => cause_name(FileCause::Oem(cause)),
        FileReason::MixedFrames => b"MixedFrames",
        FileReason::Sizes(cause) => cause_name(FileCause::Sizes(cause)),
        FileReason::NoSizes => b"NoSizes",
        FileReason::Primaries(cause) => cause_name(FileCause::Primaries(cause)),
        FileReason::NoPrimaries => b"NoPrimaries",
        FileReason::Uncovered => b"Uncovered",
    }
}

fn limit_word(limit: LimitCause) -> &'static [u8]
    ensures { result.now ≡ spec.limit_word limit }
{
    match limit {
        LimitCause::Objects => b"Objects",
        LimitCause::FileBytes => b"FileBytes",
        LimitCause::Nodes => b"Nodes",
        LimitCause::Window => b"Window",
        LimitCause::Slots => b"Slots",
        LimitCause::Cells => b"Cells",
        LimitCause::Told => b"Told",
    }
}

/// The cause that the fault line of a status tells, none where all went well.
#[tactic(auto, using(crate::proofs::TellLemmas::tells))]
pub fn cause_of(status: &Status) -> Option<Cause>
    ensures value { result ≡ spec.cause_of status.now }
    ensures told { IfSome result (λ cause. Tells cause status.now) }
{
    cause_in(status)
}

fn cause_in(status: &Status) -> Option<Cause>
    ensures { result ≡ spec.cause_of status.now }
{
    match status {
        Status::Ok => None,
        Status::NotAccepted { cause, .. } => Some(Cause::Certificate(*cause)),
        Status::Usage(fault) => Some(usage_cause(fault)),
        Status::BadFile { cause, .. } => Some(Cause::File(file_reason(*cause))),
        Status::ReadFault => Some(Cause::ReadFault),
        Status::WriteFault => Some(Cause::WriteFault),
        Status::Limit(fault) => Some(Cause::Limit(limit_cause(fault))),
        Status::OutOfMemory => Some(Cause::OutOfMemory),
    }
}

fn usage_cause(fault: &UsageFault) -> Cause
    ensures { result ≡ spec.usage_cause fault.now }
{
    match fault {
        UsageFault::Words => Cause::Words,
        UsageFault::Value { .. } => Cause::Value,
    }
}

pub fn file_reason(cause: FileCause) -> FileReason
    ensures { result ≡ spec.file_reason cause }
{
    match cause {
        FileCause::Oem(cause) => FileReason::Oem(cause),
        FileCause::MixedFrames => FileReason::MixedFrames,
        FileCause::Sizes(cause) => FileReason::Sizes(cause),
        FileCause::NoSizes => FileReason::NoSizes,
        FileCause::Primaries(cause) => FileReason::Primaries(cause),
        FileCause::NoPrimaries => FileReason::NoPrimaries,
        FileCause::Uncovered { .. } => FileReason::Uncovered,
    }
}

pub fn limit_cause(fault: &LimitFault) -> LimitCause
    ensures { result ≡ spec.limit_cause fault.now }
{
    match fault {
        LimitFault::Objects { .. } => LimitCause::Objects,
        LimitFault::FileBytes { .. } => LimitCause::FileBytes,
        LimitFault::Nodes { .. } => LimitCause::Nodes,
        LimitFault::Window { .. } => LimitCause::Window,
        LimitFault::Slots { .. } => LimitCause::Slots,
        LimitFault::Cells { .. } => LimitCause::Cells,
        LimitFault::Told { .. } => LimitCause::Told,
    }
}
