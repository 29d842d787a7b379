//! What is wrong with a line of an ephemeris.
ghost use Rattle.std.specs.Prelude.{◌≡◌};
ghost use Rattle.cj_formats.specs.declared.oem_cause.OemCause.TheVariants.{Kvn};
ghost use Rattle.cj_kvn.specs.declared.text_fault.Refused.TheVariants.{Because};

use cj_epoch::EpochFault;
use cj_kvn::{KvnCause, Refused};

/// What is wrong with a line. The end of the file counts as a line.
#[derive(Clone, Copy, Debug, PartialEq, Eq)]
pub enum OemCause {
    /// The file's name is not one of 1 to 200 printable bytes.
    Name,
    /// The line is none of key-value notation.
    Kvn(KvnCause),
    /// Such a line may not stand here.
    Order,
    /// The version is none of 1.0, 2.0 and 3.0.
    Version,
    /// The key was given before.
    Twice,
    /// The key is not known here.
    Unknown,
    /// A key that has to stand before was not given, a text is empty, or the file ends too early.
    Missing,
    /// The file does not declare Hermite interpolation of degree 3.
    Interpolation,
    /// The object is not that of the first segment.
    ObjectChanged,
    /// The center is not the Earth.
    Center,
    /// The frame is neither EME2000 nor GCRF, or not that of the first segment.
    Frame,
    /// The time system is not UTC.
    TimeSystem,
    /// The epoch is not one that can be read.
    Epoch(EpochFault),
    /// A node has neither 7 nor 10 fields.
    Fields,
    /// A field is not a number.
    Number,
    /// A coordinate is more than 500,000 km in size.
    CoordinateRange,
    /// A rate is more than 20 km/s in size.
    RateRange,
    /// The node does not come after the one before.
    TimesFall,
    /// The node comes more than an hour after the one before.
    StepTooLong,
    /// A leap second lies between the node and the one before.
    LeapSecond,
    /// The segment has fewer than two nodes.
    TooFewNodes,
    /// The useable span is empty, or does not lie from the first node to the last.
    UseableSpan,
    /// The useable span begins before that of the segment before ends.
    SegmentsOverlap,
    /// A matrix does not have its six rows of 1 to 6 fields, or its frame stands elsewhere or twice.
    MatrixForm,
}

impl From<KvnCause> for OemCause {
    ghost from_gives = { λ cause c. c ≡ Kvn cause };

    fn from(cause: KvnCause) -> Self {
        OemCause::Kvn(cause)
    }
}

impl From<OemCause> for Refused<OemCause> {
    ghost from_gives = { λ cause e. e ≡ Because cause };

    fn from(cause: OemCause) -> Self {
        Refused::Because(cause)
    }
}
