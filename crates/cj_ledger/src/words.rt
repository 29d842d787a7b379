//! The three words that the shares count with. They are sixteen words apart, which is two cache lines on usual machines, since
//! these are often fetched in pairs; no clause speaks of that.

/// The number of live cells, modulo 2^64.
pub(crate) const LIVE: usize = 0;

/// The number of leaves that are certain, which is the roots and the splits, modulo 2^64.
pub(crate) const LEAVES: usize = 16;

/// The causes for which the workers are to stop, a bit each.
pub(crate) const HALTS: usize = 32;

/// How many words a ledger has. Those between the three are not used.
pub(crate) const WORDS: usize = 33;

/// The bit of `Why::Cells`.
pub(crate) const CELLS: u64 = 1;

/// The bit of `Why::Memory`.
pub(crate) const MEMORY: u64 = 2;
