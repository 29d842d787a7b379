//! Numbers that are rounded to 18 significant digits.
ghost use Rattle.std.specs.Prelude.{◌^◌, ◌<◌, ◌≤◌, pos, neg_ℤ, ◌≤ℤ◌};

/// A number of at most 18 digits, or 10^18, times a power of ten. It is not zero.
#[derive(Clone, Copy)]
pub struct Rounded {
    pub negative: bool,
    pub digits: u64,
    pub power: i64,
    pub ghost some: { 0 < digits },
    pub ghost short: { digits ≤ 10 ^ 18 },
    pub ghost low: { neg_ℤ (pos (2 ^ 41)) ≤ℤ power },
    pub ghost high: { power ≤ℤ pos (2 ^ 41) },
}
