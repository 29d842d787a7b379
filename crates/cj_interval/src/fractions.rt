//! Fractions of a number of ticks, and quotients by multiplication.
ghost use Rattle.std.specs.Prelude.{◌≡◌, ◌+◌, ◌-◌, ◌*◌, ◌^◌, ◌<◌, ◌≤◌, pos, ◌+ℤ◌, ◌-ℤ◌, ◌*ℤ◌};
ghost use Rattle.cj_interval.specs.Rounding.{floor_div, ceil_div};
ghost use Rattle.cj_interval.specs.Sizes.{IsWithin};

/// `at` of `of` ticks, with what quotients by `of` are made from.
#[derive(Clone, Copy, Debug, PartialEq, Eq)]
pub struct Fraction {
    pub at: u64,
    pub of: u64,
    /// 2^63 times the fraction, at most two too small.
    pub scaled: u64,
    /// The multiple of `of` that makes differences natural numbers.
    pub lift: u64,
    /// The fraction of `lift`.
    pub shift: u64,
    pub ghost some: { 0 < of },
    pub ghost short: { of < 2 ^ 32 },
    pub ghost inside: { at ≤ of },
    pub ghost below: { scaled * of ≤ at * 2 ^ 63 },
    pub ghost above: { at * 2 ^ 63 < scaled * of + 2 * of },
    pub ghost high: { 2 ^ 60 ≤ lift },
    pub ghost low: { lift < 2 ^ 60 + 2 ^ 32 },
    pub ghost shifted: { lift * at ≡ shift * of },
}

impl Fraction {
    /// The fraction of `u`: the whole ticks, and what is left over.
    pub fn part(&self, u: u64) -> (u64, u64)
        requires { u ≤ 2 ^ 62 }
        ensures whole { result.0 * self.now.of + result.1 ≡ u * self.now.at }
        ensures rest { result.1 < self.now.of }
    {
        let guess = (u128::from(self.scaled) * u128::from(2 * u) / (1 << 64)) as u64;
        let rest = (u128::from(self.at) * u128::from(u)
            - u128::from(guess) * u128::from(self.of)) as u64;
        if rest < self.of {
            (guess, rest)
        } else {
            (guess + 1, rest - self.of)
        }
    }

    /// The fraction of `d`: rounded down, and what is left over.
    pub fn split(&self, d: i64) -> (i64, u64)
        requires { IsWithin (2 ^ 60) d }
        ensures whole { d *ℤ pos self.now.at ≡ result.0 *ℤ pos self.now.of +ℤ pos result.1 }
        ensures rest { result.1 < self.now.of }
        ensures within { IsWithin (2 ^ 60) result.0 }
    {
        let (whole, rest) = self.part(raised(self.lift, d));
        (lowered(whole, self.shift), rest)
    }

    /// From one number to another, this fraction on the way, rounded down.
    pub fn down(&self, a: i64, b: i64) -> i64
        requires first { IsWithin (2 ^ 59) a }
        requires second { IsWithin (2 ^ 59) b }
        ensures { result ≡ floor_div (a *ℤ pos (self.now.of - self.now.at) +ℤ b *ℤ pos self.now.at) self.now.of }
    {
        let (whole, _) = self.split(difference(b, a));
        sum(a, whole)
    }

    /// From one number to another, this fraction on the way, rounded up.
    pub fn up(&self, a: i64, b: i64) -> i64
        requires first { IsWithin (2 ^ 59) a }
        requires second { IsWithin (2 ^ 59) b }
        ensures { result ≡ ceil_div (a *ℤ pos (self.now.of - self.now.at) +ℤ b *ℤ pos self.now.at) self.now.of }
    {
        let (whole, rest) = self.split(difference(b, a));
        sum(a, rounded_up(whole, rest))
    }
}

/// A quotient rounded up, from the quotient rounded down and what is left over.
pub fn rounded_up(whole: i64, rest: u64) -> i64
    requires { IsWithin (2 ^ 60) whole }
    ensures exact { rest ≡ 0 → result ≡ whole }
    ensures next { 0 < rest → result ≡ whole +ℤ pos 1 }
    ensures within { IsWithin (2 ^ 61) result }
{
    if rest == 0 { whole } else { whole + 1 }
}

/// `d` on top of `lift`, which makes it a natural number.
fn raised(lift: u64, d: i64) -> u64
    requires high { 2 ^ 60 ≤ lift }
    requires low { lift < 2 ^ 60 + 2 ^ 32 }
    requires within { IsWithin (2 ^ 60) d }
    ensures value { pos result ≡ d +ℤ pos lift }
    ensures small { result ≤ 2 ^ 62 }
{
    (lift as i64 + d) as u64
}

/// `whole` less `shift`.
fn lowered(whole: u64, shift: u64) -> i64
    requires first { whole ≤ 2 ^ 62 }
    requires second { shift ≤ 2 ^ 62 }
    ensures { result ≡ pos whole -ℤ pos shift }
{
    whole as i64 - shift as i64
}

/// The difference of two numbers.
fn difference(a: i64, b: i64) -> i64
    requires first { IsWithin (2 ^ 59) a }
    requires second { IsWithin (2 ^ 59) b }
    ensures value { result ≡ a -ℤ b }
    ensures within { IsWithin (2 ^ 60) result }
{
    a - b
}

/// The sum of two numbers.
fn sum(a: i64, b: i64) -> i64
    requires first { IsWithin (2 ^ 59) a }
    requires second { IsWithin (2 ^ 61) b }
    ensures { result ≡ a +ℤ b }
{
    a + b
}
