//! What is wrong with a line of a file of primaries.
ghost use Rattle.std.specs.Prelude.{◌≡◌};
ghost use Rattle.cj_formats.specs.declared.primaries_cause.PrimariesCause.TheVariants.{Kvn};
ghost use Rattle.cj_kvn.specs.declared.text_fault.Refused.TheVariants.{Because};

use cj_kvn::{KvnCause, Refused};

/// What is wrong with a line.
#[derive(Clone, Copy, Debug, PartialEq, Eq)]
pub enum PrimariesCause {
    /// The line is none of key-value notation.
    Kvn(KvnCause),
    /// The line is not a row of one field.
    Form,
    /// This designator was named before.
    Twice,
    /// No object has this designator.
    Unknown,
}

impl From<KvnCause> for PrimariesCause {
    ghost from_gives = { λ cause c. c ≡ Kvn cause };

    fn from(cause: KvnCause) -> Self {
        PrimariesCause::Kvn(cause)
    }
}

impl From<PrimariesCause> for Refused<PrimariesCause> {
    ghost from_gives = { λ cause e. e ≡ Because cause };

    fn from(cause: PrimariesCause) -> Self {
        Refused::Because(cause)
    }
}
