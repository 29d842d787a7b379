ghost use Rattle.std.specs.Prelude.{◌≡◌, length};
ghost use Rattle.std.specs.List.{All};
ghost use Rattle.cj_base.specs.Decimals.{IsReadable, number_of};

use cj_base::{Decimal, Tick};

/// A covariance in the frame RTN at a tick: the lower triangle of a symmetric matrix of 6 rows, row by row, in km and km/s.
#[derive(Clone, Copy, Debug, PartialEq, Eq)]
pub struct Matrix {
    pub at: Tick,
    pub values: [Decimal; 21],
    pub ghost whole: { length values ≡ 21 },
    pub ghost readable: { All (λ d. IsReadable (number_of d)) values },
}
