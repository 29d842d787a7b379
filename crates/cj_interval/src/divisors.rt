//! Divisors that are made ready once for many quotients.
ghost use Rattle.std.specs.Prelude.{◌≡◌, ◌+◌, ◌*◌, ◌^◌, ◌<◌, ◌≤◌};

use crate::fractions::Fraction;

/// A number of ticks, with what fractions of it are made from.
#[derive(Clone, Copy, Debug, PartialEq, Eq)]
pub struct Divisor {
    pub of: u64,
    /// 2^95 divided by `of`, rounded down.
    pub inverse: u128,
    /// 2^60 divided by `of`, rounded up.
    pub lifts: u64,
    pub ghost some: { 0 < of },
    pub ghost short: { of < 2 ^ 32 },
    pub ghost below: { inverse * of ≤ 2 ^ 95 },
    pub ghost above: { 2 ^ 95 < inverse * of + of },
    pub ghost high: { 2 ^ 60 ≤ lifts * of },
    pub ghost low: { lifts * of < 2 ^ 60 + of },
}

impl Divisor {
    /// `of` made ready.
    pub fn new(of: u64) -> Divisor
        requires some { 0 < of }
        requires short { of < 2 ^ 32 }
        ensures { result.of ≡ of }
    {
        Divisor {
            of,
            inverse: (1 << 95) / u128::from(of),
            lifts: (1_u64 << 60).div_ceil(of),
        }
    }

    /// `of` made ready, for nothing where it is this divisor.
    pub fn like(self, of: u64) -> Divisor
        requires some { 0 < of }
        requires short { of < 2 ^ 32 }
        ensures { result.of ≡ of }
    {
        if self.of == of {
            self
        } else {
            Divisor::new(of)
        }
    }

    /// `at` of this many ticks.
    pub fn fraction(&self, at: u64) -> Fraction
        requires { at ≤ self.now.of }
        ensures at { result.at ≡ at }
        ensures of { result.of ≡ self.now.of }
    {
        Fraction {
            at,
            of: self.of,
            scaled: (self.inverse * u128::from(at) / (1 << 32)) as u64,
            lift: self.lifts * self.of,
            shift: self.lifts * at,
        }
    }
}
