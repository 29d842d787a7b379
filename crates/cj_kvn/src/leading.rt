//! The first digits of a number.
ghost use Rattle.std.specs.Prelude.{◌≡◌, ℕ, ◌+◌, ◌*◌, ◌^◌, ◌<◌, ◌≤◌, pos, neg_ℤ, ◌≤ℤ◌};

/// The first digits of a whole number, up to 38 of them, and how many digits stand past them.
#[derive(Clone, Copy)]
pub struct Leading {
    pub value: u128,
    pub past: u32,
    pub ghost small: { value < 10 ^ 38 },
}

/// The least number of 38 digits.
const LEAST_FULL: u128 = 10_000_000_000_000_000_000_000_000_000_000_000_000;

impl Leading {
    ghost use Rattle.cj_kvn.specs.Scanning.{Leads};

    pub const NONE: Leading = Leading { value: 0, past: 0 };

    /// The number with one more digit at its end.
    pub fn push(self, digit: u8) -> Leading
        requires digit { digit < 10 }
        requires room { self.past + 1 < 2 ^ 32 }
        ensures leads { (n : ℕ) → Leads self n → Leads result (n * 10 + digit) }
        ensures past { result.past ≤ self.past + 1 }
    {
        if self.value < LEAST_FULL {
            Leading {
                value: self.value * 10 + u128::from(digit),
                past: self.past,
            }
        } else {
            Leading {
                value: self.value,
                past: self.past + 1,
            }
        }
    }
}

/// A number by its sign and its first digits, up to 38 of them, times a power of ten.
#[derive(Clone, Copy)]
pub struct Scanned {
    pub negative: bool,
    pub leading: u128,
    pub power: i64,
    pub ghost small: { leading < 10 ^ 38 },
    pub ghost low: { neg_ℤ (pos (2 ^ 40)) ≤ℤ power },
    pub ghost high: { power ≤ℤ pos (2 ^ 40) },
}
