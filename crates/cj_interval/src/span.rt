//! Spans, and the operations on them.
ghost use Rattle.std.specs.Prelude.{◌≡◌, ℕ, ◌+◌, ◌-◌, ◌*◌, ◌^◌, ◌<◌, ◌≤◌, ℤ, pos, ◌+ℤ◌, ◌-ℤ◌, ◌*ℤ◌, ◌≤ℤ◌};
ghost use Rattle.cj_interval.specs.Rounding.{floor_div, ceil_div};
ghost use Rattle.cj_interval.specs.Sizes.{IsWithin};
ghost use Rattle.cj_interval.specs.Spans.{IsIn, least, greatest};

/// The whole numbers from `lo` to `hi`, both included.
#[derive(Clone, Copy, Debug, PartialEq, Eq)]
pub struct Span {
    pub lo: i128,
    pub hi: i128,
    pub ghost ordered: { lo ≤ℤ hi },
}

impl Span {
    /// The sums of a number of each.
    pub fn add(self, other: Span) -> Span
        requires self_low { IsWithin (2 ^ 125) self.lo }
        requires self_high { IsWithin (2 ^ 125) self.hi }
        requires other_low { IsWithin (2 ^ 125) other.lo }
        requires other_high { IsWithin (2 ^ 125) other.hi }
        ensures lower { result.lo ≡ self.lo +ℤ other.lo }
        ensures upper { result.hi ≡ self.hi +ℤ other.hi }
        ensures encloses { (x y : ℤ) → IsIn self.lo self.hi x → IsIn other.lo other.hi y → IsIn result.lo result.hi (x +ℤ y) }
    {
        Span {
            lo: self.lo + other.lo,
            hi: self.hi + other.hi,
        }
    }

    /// The differences of a number of this span and one of the other.
    pub fn sub(self, other: Span) -> Span
        requires self_low { IsWithin (2 ^ 125) self.lo }
        requires self_high { IsWithin (2 ^ 125) self.hi }
        requires other_low { IsWithin (2 ^ 125) other.lo }
        requires other_high { IsWithin (2 ^ 125) other.hi }
        ensures lower { result.lo ≡ self.lo -ℤ other.hi }
        ensures upper { result.hi ≡ self.hi -ℤ other.lo }
        ensures encloses { (x y : ℤ) → IsIn self.lo self.hi x → IsIn other.lo other.hi y → IsIn result.lo result.hi (x -ℤ y) }
    {
        Span {
            lo: self.lo - other.hi,
            hi: self.hi - other.lo,
        }
    }

    /// The products of a number of each, from the least to the greatest of the four products of ends.
    pub fn mul(self, other: Span) -> Span
        requires self_low { IsWithin (2 ^ 62) self.lo }
        requires self_high { IsWithin (2 ^ 62) self.hi }
        requires other_low { IsWithin (2 ^ 62) other.lo }
        requires other_high { IsWithin (2 ^ 62) other.hi }
        ensures lower { result.lo ≡ least (self.lo *ℤ other.lo) (self.lo *ℤ other.hi) (self.hi *ℤ other.lo) (self.hi *ℤ other.hi) }
        ensures upper { result.hi ≡ greatest (self.lo *ℤ other.lo) (self.lo *ℤ other.hi) (self.hi *ℤ other.lo) (self.hi *ℤ other.hi) }
        ensures encloses { (x y : ℤ) → IsIn self.lo self.hi x → IsIn other.lo other.hi y → IsIn result.lo result.hi (x *ℤ y) }
    {
        let (lo, hi) = product_ends(self, other);
        Span { lo, hi }
    }

    /// `by` times each number.
    pub fn scale(self, by: u32) -> Span
        requires low { IsWithin (2 ^ 126) (self.lo *ℤ pos by) }
        requires high { IsWithin (2 ^ 126) (self.hi *ℤ pos by) }
        ensures lower { result.lo ≡ self.lo *ℤ pos by }
        ensures upper { result.hi ≡ self.hi *ℤ pos by }
        ensures encloses { (x : ℤ) → IsIn self.lo self.hi x → IsIn result.lo result.hi (x *ℤ pos by) }
    {
        let factor = i128::from(by);
        Span {
            lo: self.lo * factor,
            hi: self.hi * factor,
        }
    }

    /// From this span to the other, `at` of `of` ticks on the way, divided by `by`: the lower end is rounded down, the upper
    /// end up.
    pub fn lerp(self, other: Span, at: u64, of: u64, by: u64) -> Span
        requires some { 0 < of }
        requires divisor { 0 < by }
        requires inside { at ≤ of }
        requires product { of * by < 2 ^ 64 }
        requires self_low { IsWithin (2 ^ 126) (self.lo *ℤ pos of) }
        requires self_high { IsWithin (2 ^ 126) (self.hi *ℤ pos of) }
        requires other_low { IsWithin (2 ^ 126) (other.lo *ℤ pos of) }
        requires other_high { IsWithin (2 ^ 126) (other.hi *ℤ pos of) }
        ensures lower { result.lo ≡ floor_div (self.lo *ℤ pos (of - at) +ℤ other.lo *ℤ pos at) (of * by) }
        ensures upper { result.hi ≡ ceil_div (self.hi *ℤ pos (of - at) +ℤ other.hi *ℤ pos at) (of * by) }
        ensures encloses { (x y : ℤ) → IsIn self.lo self.hi x → IsIn other.lo other.hi y → IsIn (result.lo *ℤ pos (of * by)) (result.hi *ℤ pos (of * by)) (x *ℤ pos (of - at) +ℤ y *ℤ pos at) }
    {
        let low = blend(self.lo, other.lo, of - at, at);
        let high = blend(self.hi, other.hi, of - at, at);
        outward(low, high, of * by)
    }

    /// From one number to another, `at` of `of` ticks on the way, divided by `by` and rounded down and up.
    pub fn between(first: i128, second: i128, at: u64, of: u64, by: u64) -> Span
        requires some { 0 < of }
        requires divisor { 0 < by }
        requires inside { at ≤ of }
        requires product { of * by < 2 ^ 64 }
        requires first_within { IsWithin (2 ^ 126) (first *ℤ pos of) }
        requires second_within { IsWithin (2 ^ 126) (second *ℤ pos of) }
        ensures lower { result.lo ≡ floor_div (first *ℤ pos (of - at) +ℤ second *ℤ pos at) (of * by) }
        ensures upper { result.hi ≡ ceil_div (first *ℤ pos (of - at) +ℤ second *ℤ pos at) (of * by) }
        ensures encloses { IsIn (result.lo *ℤ pos (of * by)) (result.hi *ℤ pos (of * by)) (first *ℤ pos (of - at) +ℤ second *ℤ pos at) }
    {
        let value = blend(first, second, of - at, at);
        outward(value, value, of * by)
    }
}

/// The least and the greatest product of the ends, named by the signs of the spans where these settle it.
fn product_ends(first: Span, second: Span) -> (i128, i128)
    requires first_low { IsWithin (2 ^ 62) first.lo }
    requires first_high { IsWithin (2 ^ 62) first.hi }
    requires second_low { IsWithin (2 ^ 62) second.lo }
    requires second_high { IsWithin (2 ^ 62) second.hi }
    ensures lower { result.0 ≡ least (first.lo *ℤ second.lo) (first.lo *ℤ second.hi) (first.hi *ℤ second.lo) (first.hi *ℤ second.hi) }
    ensures upper { result.1 ≡ greatest (first.lo *ℤ second.lo) (first.lo *ℤ second.hi) (first.hi *ℤ second.lo) (first.hi *ℤ second.hi) }
{
    if 0 <= first.lo && 0 <= second.lo {
        (corner(first.lo, second.lo), corner(first.hi, second.hi))
    } else if 0 <= first.lo && second.hi <= 0 {
        (corner(first.hi, second.lo), corner(first.lo, second.hi))
    } else if first.hi <= 0 && 0 <= second.lo {
        (corner(first.lo, second.hi), corner(first.hi, second.lo))
    } else if first.hi <= 0 && second.hi <= 0 {
        (corner(first.hi, second.hi), corner(first.lo, second.lo))
    } else {
        ends_of_four(first, second)
    }
}

/// The least and the greatest of the four products of ends.
fn ends_of_four(first: Span, second: Span) -> (i128, i128)
    requires first_low { IsWithin (2 ^ 62) first.lo }
    requires first_high { IsWithin (2 ^ 62) first.hi }
    requires second_low { IsWithin (2 ^ 62) second.lo }
    requires second_high { IsWithin (2 ^ 62) second.hi }
    ensures lower { result.0 ≡ least (first.lo *ℤ second.lo) (first.lo *ℤ second.hi) (first.hi *ℤ second.lo) (first.hi *ℤ second.hi) }
    ensures upper { result.1 ≡ greatest (first.lo *ℤ second.lo) (first.lo *ℤ second.hi) (first.hi *ℤ second.lo) (first.hi *ℤ second.hi) }
{
    let low_low = corner(first.lo, second.lo);
    let low_high = corner(first.lo, second.hi);
    let high_low = corner(first.hi, second.lo);
    let high_high = corner(first.hi, second.hi);
    (
        least_of(low_low, low_high, high_low, high_high),
        greatest_of(low_low, low_high, high_low, high_high),
    )
}

#[tactic(auto, unfolding(crate::specs::Spans::least))]
fn least_of(a: i128, b: i128, c: i128, d: i128) -> i128
    ensures { result ≡ least a b c d }
{
    a.min(b).min(c.min(d))
}

#[tactic(auto, unfolding(crate::specs::Spans::greatest))]
fn greatest_of(a: i128, b: i128, c: i128, d: i128) -> i128
    ensures { result ≡ greatest a b c d }
{
    a.max(b).max(c.max(d))
}

/// The product of two ends.
fn corner(a: i128, b: i128) -> i128
    requires first { IsWithin (2 ^ 62) a }
    requires second { IsWithin (2 ^ 62) b }
    ensures { result ≡ a *ℤ b }
{
    i128::from(a as i64) * i128::from(b as i64)
}

/// `by` times a number.
fn product(a: i128, by: u64) -> i128
    requires { IsWithin (2 ^ 126) (a *ℤ pos by) }
    ensures { result ≡ a *ℤ pos by }
{
    a * i128::from(by)
}

/// The sum of two numbers with the weights `before` and `after`.
fn blend(a: i128, b: i128, before: u64, after: u64) -> i128
    requires first { IsWithin (2 ^ 126) (a *ℤ pos (before + after)) }
    requires second { IsWithin (2 ^ 126) (b *ℤ pos (before + after)) }
    ensures value { result ≡ a *ℤ pos before +ℤ b *ℤ pos after }
    ensures within { IsWithin (2 ^ 126) result }
{
    product(a, before) + product(b, after)
}

/// `z / by`, rounded down.
fn quotient_down(z: i128, by: u64) -> i128
    requires some { 0 < by }
    requires within { IsWithin (2 ^ 126) z }
    ensures value { result ≡ floor_div z by }
    ensures small { IsWithin (2 ^ 126) result }
    ensures product { IsWithin (2 ^ 126 + 2 ^ 64) (result *ℤ pos by) }
    ensures below { (result *ℤ pos by) ≤ℤ z }
{
    z.div_euclid(i128::from(by))
}

/// `z / by`, rounded up.
fn quotient_up(z: i128, by: u64) -> i128
    requires some { 0 < by }
    requires within { IsWithin (2 ^ 126) z }
    ensures { result ≡ ceil_div z by }
{
    -(-z).div_euclid(i128::from(by))
}

/// What `by` times a lower quotient leaves of a number.
fn left_over(z: i128, quotient: i128, by: u64) -> u128
    requires within { IsWithin (2 ^ 126) z }
    requires product { IsWithin (2 ^ 126 + 2 ^ 64) (quotient *ℤ pos by) }
    requires below { (quotient *ℤ pos by) ≤ℤ z }
    ensures { z ≡ quotient *ℤ pos by +ℤ pos result }
{
    z.abs_diff(quotient * i128::from(by))
}

/// `z / by`, rounded up, from a lower quotient: no wide division where little is left over.
fn quotient_up_from(z: i128, quotient: i128, by: u64) -> i128
    requires some { 0 < by }
    requires within { IsWithin (2 ^ 126) z }
    requires small { IsWithin (2 ^ 126) quotient }
    requires product { IsWithin (2 ^ 126 + 2 ^ 64) (quotient *ℤ pos by) }
    requires below { (quotient *ℤ pos by) ≤ℤ z }
    ensures { result ≡ ceil_div z by }
{
    match u64::try_from(left_over(z, quotient, by)) {
        Ok(rest) => quotient + i128::from(rest.div_ceil(by)),
        Err(_) => quotient_up(z, by),
    }
}

/// The least span round `low / by` and `high / by`.
fn outward(low: i128, high: i128, by: u64) -> Span
    requires some { 0 < by }
    requires ordered { low ≤ℤ high }
    requires low_within { IsWithin (2 ^ 126) low }
    requires high_within { IsWithin (2 ^ 126) high }
    ensures lower { result.lo ≡ floor_div low by }
    ensures upper { result.hi ≡ ceil_div high by }
{
    let quotient = quotient_down(low, by);
    Span {
        lo: quotient,
        hi: quotient_up_from(high, quotient, by),
    }
}
