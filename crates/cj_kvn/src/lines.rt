//! Lines of a key-value file.
use crate::range::Range32;
use crate::text_fault::TextFault;

/// A line by its number, counted from 1, and its kind.
#[derive(Clone, Copy, Debug, PartialEq, Eq)]
pub struct Line {
    pub number: u32,
    pub kind: LineKind,
}

/// What a line is. The parts lie in the file's bytes and have no outer blanks.
#[derive(Clone, Copy, Debug, PartialEq, Eq)]
pub enum LineKind {
    Blank,
    Comment,
    Mark(MarkKind),
    Pair { key: Range32, value: Range32 },
    Row { text: Range32 },
}

/// A word that opens or closes a block.
#[derive(Clone, Copy, Debug, PartialEq, Eq)]
pub enum MarkKind {
    MetaStart,
    MetaStop,
    CovarianceStart,
    CovarianceStop,
}

/// Why a line is none of key-value notation.
#[derive(Clone, Copy, Debug, PartialEq, Eq)]
pub enum KvnCause {
    /// It has a byte that may stand in comments alone.
    NotPrintable,
    /// Its key is not one or more of A to Z, 0 to 9 and `_`.
    NoLineForm,
}

/// Why the lines of a file are not read.
pub type KvnFault = TextFault<KvnCause>;
