//! Decimal numbers of 18 significant digits.
ghost use Rattle.std.specs.Prelude.{◌≡◌, ◌^◌, ◌<◌, ◌%◌, pos, neg_ℤ, ◌≤ℤ◌, false};

/// A decimal number of at most 18 digits: digits * 10^exponent, and its sign.
#[derive(Clone, Copy, Debug, PartialEq, Eq)]
pub struct Decimal {
    pub negative: bool,
    pub digits: u64,
    pub exponent: i32,
    pub ghost short: { digits < 10 ^ 18 },
    pub ghost normal: { digits % 10 ≡ 0 → (negative ≡ false) × (digits ≡ 0) × (exponent ≡ pos 0) },
}

impl Decimal {
    ghost use Rattle.cj_base.specs.Decimals.{IsTenfold, number_of, shifted};

    pub const ZERO: Decimal = Decimal {
        negative: false,
        digits: 0,
        exponent: 0,
    };

    /// The number times 10 to the power `by`.
    pub fn shift(self, by: i32) -> Decimal
        requires by_low { neg_ℤ (pos 12) ≤ℤ by }
        requires by_high { by ≤ℤ pos 12 }
        requires low { neg_ℤ (pos 200) ≤ℤ self.exponent }
        requires high { self.exponent ≤ℤ pos 200 }
        ensures exact { number_of result ≡ shifted (number_of self) by }
        ensures value { IsTenfold (number_of self) by (number_of result) }
    {
        if self.digits == 0 {
            return self;
        }
        Decimal {
            negative: self.negative,
            digits: self.digits,
            exponent: self.exponent + by,
        }
    }
}
