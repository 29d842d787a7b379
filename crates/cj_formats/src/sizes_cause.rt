//! What is wrong with a line of a file of sizes.
ghost use Rattle.std.specs.Prelude.{◌≡◌};
ghost use Rattle.cj_formats.specs.declared.sizes_cause.SizesCause.TheVariants.{Kvn};
ghost use Rattle.cj_kvn.specs.declared.text_fault.Refused.TheVariants.{Because};

use cj_kvn::{KvnCause, Refused};

/// What is wrong with a line.
#[derive(Clone, Copy, Debug, PartialEq, Eq)]
pub enum SizesCause {
    /// The line is none of key-value notation.
    Kvn(KvnCause),
    /// The line is not a row of two fields.
    Form,
    /// The radius is not a number.
    Number,
    /// The radius is below 0 or above a kilometre.
    Range,
    /// A radius was given for this designator before.
    Twice,
}

impl From<KvnCause> for SizesCause {
    ghost from_gives = { λ cause c. c ≡ Kvn cause };

    fn from(cause: KvnCause) -> Self {
        SizesCause::Kvn(cause)
    }
}

impl From<SizesCause> for Refused<SizesCause> {
    ghost from_gives = { λ cause e. e ≡ Because cause };

    fn from(cause: SizesCause) -> Self {
        Refused::Because(cause)
    }
}
