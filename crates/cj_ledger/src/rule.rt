//! What holds of the words between any two steps, and how shares are cut off and joined again.
use crate::count::{Count, Opening};
use atomic_table::{Join, Split, TableRule};

/// The words are the sums of what the shares have counted.
pub struct WordsAreSums;

impl<S> TableRule<S, Count, Opening> for WordsAreSums {
    ghost use Rattle.cj_ledger.specs.Words.{Kept};
    ghost use Rattle.cj_ledger.specs.Counts.{opened};

    ghost holds = { Kept };

    ghost first = { opened };
}

/// A share is cut off with one part, and has counted nothing.
pub struct CutsOff;

impl Split<Count> for CutsOff {
    ghost use Rattle.cj_ledger.specs.Counts.{less_a_part, cut_off};

    ghost left = { less_a_part };

    ghost right = { cut_off };
}

/// A share takes in what another has counted.
pub struct TakesIn;

impl Join<Count> for TakesIn {
    ghost use Rattle.cj_ledger.specs.Counts.{both, nobody};

    ghost both = { both };

    ghost spent = { nobody };
}
