ghost use Rattle.std.specs.Prelude.{◌≡◌};
ghost use Rattle.cj_status.specs.Statuses.{number_of};

use cj_formats::{CertCause, CheckCause, OemCause, PrimariesCause, SizesCause};
use cj_io::Name;
use cj_words::UsageFault;

/// Why a file was refused.
#[derive(Clone, Copy, Debug, PartialEq, Eq)]
pub enum FileCause {
    /// It is not an ephemeris that can be read.
    Oem(OemCause),
    /// Its frame is not that of the first file.
    MixedFrames,
    /// It is not a file of sizes.
    Sizes(SizesCause),
    /// No file has this name, which was given for the file of sizes.
    NoSizes,
    /// It is not a file of primaries.
    Primaries(PrimariesCause),
    /// No file has this name, which was given for the file of primaries.
    NoPrimaries,
    /// Its object has to cover the window, and has no state at this tick of it, the first of such: so many microseconds since 1970.
    Uncovered { micros: u64 },
}

/// Why a certificate, or the report beside it, was not accepted.
#[derive(Clone, Copy, Debug, PartialEq, Eq)]
pub enum CertificateCause {
    /// No file has its name.
    NoFile,
    /// It is not a certificate that can be read.
    Text(CertCause),
    /// It is not accepted for the files.
    Refused(CheckCause),
    /// No file has the name that was given for the report.
    NoReport,
    /// It is accepted, and the report is not that of its cells.
    Report,
}

/// What is beyond its limit.
#[derive(Debug, PartialEq, Eq, Drop)]
pub enum LimitFault {
    /// There are so many objects, more than the limit of the run.
    Objects { count: u32 },
    /// This file has more than 67,108,864 bytes, or it is the certificate or the report and has more than the limit of the run.
    FileBytes { file: Name },
    /// The files up to one of them have so many nodes, more than the limit of the run.
    Nodes { count: u64 },
    /// The last tick of the window less the first is so much, more than fourteen days.
    Window { length: u64 },
    /// The objects times the slots of the window are so many, more than the limit of the run.
    Slots { count: u64 },
    /// There are more leaves than this limit.
    Cells { limit: u64 },
    /// There are more leaves that a certificate in brief tells than this limit.
    Told { limit: u64 },
}

/// How a run ended.
#[derive(Debug, Drop)]
pub enum Status {
    Ok,
    /// The certificate that was to be checked, or the report, is not accepted; lines are counted from 1, and 0 stands for the whole.
    NotAccepted {
        line: u32,
        cause: CertificateCause,
    },
    Usage(UsageFault),
    BadFile {
        file: Name,
        line: u32,
        cause: FileCause,
    },
    ReadFault,
    WriteFault,
    Limit(LimitFault),
    OutOfMemory,
}

impl Status {
    /// The exit status of the program.
    pub fn number(&self) -> u8
        ensures { result ≡ number_of self.now }
    {
        match self {
            Status::Ok => 0,
            Status::NotAccepted { .. } => 1,
            Status::Usage(_) => 2,
            Status::BadFile { .. } => 3,
            Status::ReadFault => 4,
            Status::WriteFault => 5,
            Status::Limit(_) => 6,
            Status::OutOfMemory => 7,
        }
    }
}
