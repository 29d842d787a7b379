//! Why a text is not read: one fault, at its line, generic in its cause.
ghost use Rattle.std.specs.Prelude.{◌≡◌};
ghost use Rattle.cj_kvn.specs.Faults.{IsToldAs, refused_at};
ghost use Rattle.cj_kvn.specs.declared.text_fault.Refused.TheVariants as refused;
ghost use Rattle.cj_kvn.specs.declared.text_fault.TextFault.TheVariants.{Memory};

use std::alloc::{AllocError, AllocFailed};

/// Why a text is not read.
#[derive(Clone, Copy, Debug, PartialEq, Eq)]
pub enum TextFault<C> {
    /// Memory ran out.
    Memory,
    /// The first fault of the text, at its line. Lines are counted from 1; what concerns the text as a whole is at line 0.
    At { line: u32, cause: C },
}

/// Why a line is not followed.
#[derive(Clone, Copy, Debug, PartialEq, Eq)]
pub enum Refused<C> {
    /// Memory ran out.
    Memory,
    /// What is wrong with the line.
    Because(C),
}

/// A fault at its line, where memory is not asked for.
#[derive(Clone, Copy, Debug, PartialEq, Eq)]
pub struct LineFault<C> {
    pub line: u32,
    pub cause: C,
}

impl<C> Refused<C> {
    /// The same, at a line of a text.
    pub fn at(self, line: u32) -> TextFault<C>
        ensures { result ≡ refused_at line self }
    {
        match self {
            Refused::Memory => TextFault::Memory,
            Refused::Because(cause) => TextFault::At { line, cause },
        }
    }
}

impl<C> From<AllocError> for TextFault<C> {
    ghost from_gives = { λ _ e. e ≡ Memory };

    fn from(_: AllocError) -> Self {
        TextFault::Memory
    }
}

impl<C, T: Drop> From<AllocFailed<T>> for TextFault<C> {
    ghost from_gives = { λ _ e. e ≡ Memory };

    fn from(_: AllocFailed<T>) -> Self {
        TextFault::Memory
    }
}

/// A fault of lines is one of the text. Its cause may be told by that of another format.
impl<D, C: From<D>> From<LineFault<D>> for TextFault<C> {
    ghost from_gives = { λ fault e. IsToldAs C.from_gives fault e };

    fn from(fault: LineFault<D>) -> Self {
        TextFault::At {
            line: fault.line,
            cause: C::from(fault.cause),
        }
    }
}

impl<C> From<AllocError> for Refused<C> {
    ghost from_gives = { λ _ e. e ≡ refused.Memory };

    fn from(_: AllocError) -> Self {
        Refused::Memory
    }
}

impl<C, T: Drop> From<AllocFailed<T>> for Refused<C> {
    ghost from_gives = { λ _ e. e ≡ refused.Memory };

    fn from(_: AllocFailed<T>) -> Self {
        Refused::Memory
    }
}
