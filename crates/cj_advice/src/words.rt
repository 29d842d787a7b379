//! Each cause with what a person is told of it.
use crate::advice::Advice;
use crate::cause::{Cause, FileReason};
use crate::{certificates, ephemerides, limits, outside, primaries, sizes, usage};

/// What a person is told of a cause.
pub fn advice_on(cause: Cause) -> Advice {
    match cause {
        Cause::Words => usage::WORDS,
        Cause::Value => usage::VALUE,
        Cause::File(reason) => advice_on_file(reason),
        Cause::Certificate(cause) => certificates::advice_on(cause),
        Cause::Limit(limit) => limits::advice_on(limit),
        Cause::ReadFault => outside::READ_FAULT,
        Cause::WriteFault => outside::WRITE_FAULT,
        Cause::OutOfMemory => outside::OUT_OF_MEMORY,
    }
}

fn advice_on_file(reason: FileReason) -> Advice {
    match reason {
        FileReason::Oem(cause) => ephemerides::advice_on(cause),
        FileReason::MixedFrames => sizes::MIXED_FRAMES,
        FileReason::Sizes(cause) => sizes::advice_on(cause),
        FileReason::NoSizes => sizes::NO_SIZES,
        FileReason::Primaries(cause) => primaries::advice_on(cause),
        FileReason::NoPrimaries => primaries::NO_PRIMARIES,
        FileReason::Uncovered => ephemerides::UNCOVERED,
    }
}
