//! A cause by the words that fault lines print for it.
ghost use Rattle.std.specs.Prelude.{◌≡◌, IfSome, Some};
ghost use Rattle.cj_advice.specs.Causes as spec;
ghost use Rattle.cj_advice.specs.declared.cause.Cause.{Cause as AnyCause};

use crate::cause::{Cause, FileReason, LimitCause, cause_word};
use cj_epoch::EpochFault;
use cj_formats::{CertCause, CheckCause, OemCause, PrimariesCause, SizesCause};
use cj_kvn::KvnCause;
use cj_status::CertificateCause;

/// Each cause once, in the order of docs/FORMATS.md.
pub const EVERY: [Cause; 71] = [
    Cause::Words,
    Cause::Value,
    Cause::File(FileReason::Oem(OemCause::Name)),
    Cause::File(FileReason::Oem(OemCause::Kvn(KvnCause::NotPrintable))),
    Cause::File(FileReason::Oem(OemCause::Kvn(KvnCause::NoLineForm))),
    Cause::File(FileReason::Oem(OemCause::Order)),
    Cause::File(FileReason::Oem(OemCause::Version)),
    Cause::File(FileReason::Oem(OemCause::Twice)),
    Cause::File(FileReason::Oem(OemCause::Unknown)),
    Cause::File(FileReason::Oem(OemCause::Missing)),
    Cause::File(FileReason::Oem(OemCause::ObjectChanged)),
    Cause::File(FileReason::Oem(OemCause::Center)),
    Cause::File(FileReason::Oem(OemCause::TimeSystem)),
    Cause::File(FileReason::Oem(OemCause::Frame)),
    Cause::File(FileReason::Oem(OemCause::Interpolation)),
    Cause::File(FileReason::Oem(OemCause::Fields)),
    Cause::File(FileReason::Oem(OemCause::MatrixForm)),
    Cause::File(FileReason::Oem(OemCause::Epoch(EpochFault::Form))),
    Cause::File(FileReason::Oem(OemCause::Epoch(EpochFault::Range))),
    Cause::File(FileReason::Oem(OemCause::Epoch(EpochFault::SecondSixty))),
    Cause::File(FileReason::Oem(OemCause::Epoch(EpochFault::TooFine))),
    Cause::File(FileReason::Oem(OemCause::Number)),
    Cause::File(FileReason::Oem(OemCause::CoordinateRange)),
    Cause::File(FileReason::Oem(OemCause::RateRange)),
    Cause::File(FileReason::Oem(OemCause::TimesFall)),
    Cause::File(FileReason::Oem(OemCause::StepTooLong)),
    Cause::File(FileReason::Oem(OemCause::LeapSecond)),
    Cause::File(FileReason::Oem(OemCause::TooFewNodes)),
    Cause::File(FileReason::Oem(OemCause::UseableSpan)),
    Cause::File(FileReason::Oem(OemCause::SegmentsOverlap)),
    Cause::File(FileReason::MixedFrames),
    Cause::File(FileReason::Sizes(SizesCause::Kvn(KvnCause::NotPrintable))),
    Cause::File(FileReason::Sizes(SizesCause::Kvn(KvnCause::NoLineForm))),
    Cause::File(FileReason::Sizes(SizesCause::Form)),
    Cause::File(FileReason::Sizes(SizesCause::Number)),
    Cause::File(FileReason::Sizes(SizesCause::Range)),
    Cause::File(FileReason::Sizes(SizesCause::Twice)),
    Cause::File(FileReason::NoSizes),
    Cause::File(FileReason::Primaries(PrimariesCause::Kvn(KvnCause::NotPrintable))),
    Cause::File(FileReason::Primaries(PrimariesCause::Kvn(KvnCause::NoLineForm))),
    Cause::File(FileReason::Primaries(PrimariesCause::Form)),
    Cause::File(FileReason::Primaries(PrimariesCause::Twice)),
    Cause::File(FileReason::Primaries(PrimariesCause::Unknown)),
    Cause::File(FileReason::NoPrimaries),
    Cause::File(FileReason::Uncovered),
    Cause::Certificate(CertificateCause::NoFile),
    Cause::Certificate(CertificateCause::Text(CertCause::Form)),
    Cause::Certificate(CertificateCause::Text(CertCause::Range)),
    Cause::Certificate(CertificateCause::Text(CertCause::End)),
    Cause::Certificate(CertificateCause::Refused(CheckCause::Header)),
    Cause::Certificate(CertificateCause::Refused(CheckCause::SizeOf)),
    Cause::Certificate(CertificateCause::Refused(CheckCause::PrimaryOf)),
    Cause::Certificate(CertificateCause::Refused(CheckCause::ShellOf)),
    Cause::Certificate(CertificateCause::Refused(CheckCause::BoxOf)),
    Cause::Certificate(CertificateCause::Refused(CheckCause::Untiled)),
    Cause::Certificate(CertificateCause::Refused(CheckCause::Stranger)),
    Cause::Certificate(CertificateCause::Refused(CheckCause::NotFar)),
    Cause::Certificate(CertificateCause::Refused(CheckCause::NotNear)),
    Cause::Certificate(CertificateCause::Refused(CheckCause::NotBand)),
    Cause::Certificate(CertificateCause::NoReport),
    Cause::Certificate(CertificateCause::Report),
    Cause::Limit(LimitCause::Objects),
    Cause::Limit(LimitCause::FileBytes),
    Cause::Limit(LimitCause::Nodes),
    Cause::Limit(LimitCause::Window),
    Cause::Limit(LimitCause::Slots),
    Cause::Limit(LimitCause::Cells),
    Cause::Limit(LimitCause::Told),
    Cause::ReadFault,
    Cause::WriteFault,
    Cause::OutOfMemory,
];

/// The cause that fault lines print by these words.
#[tactic(auto, using(crate::proofs::CauseLemmas::each_named, crate::proofs::CauseLemmas::named_word))]
pub fn cause_named(word: &[u8]) -> Option<Cause>
    ensures value { result ≡ spec.cause_named word.now }
    ensures found { IfSome result (λ cause. spec.word_of cause ≡ word.now) }
    ensures each { (cause : AnyCause) → word.now ≡ spec.word_of cause → result ≡ Some cause }
{
    first_named(word)
}

fn first_named(word: &[u8]) -> Option<Cause>
    ensures { result ≡ spec.cause_named word.now }
{
    for cause in &EVERY {
        if cause_word(*cause) == word {
            return Some(*cause);
        }
    }
    None
}
