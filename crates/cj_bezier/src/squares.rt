//! Whole numbers between which a gap shows the squared distance to lie.
ghost use Rattle.std.specs.Prelude.{◌≡◌, ◌<◌, ◌≤◌, ◌^◌, pos, slice_index_or};
ghost use Rattle.std.specs.Int.{int_min, int_max};
ghost use Rattle.cj_interval.specs.Rounding.{floor_div, ceil_div};
ghost use Rattle.cj_interval.specs.Spans.{IsWithin};
ghost use Rattle.cj_bezier.specs.Hulls.{lows, highs};
ghost use Rattle.cj_bezier.specs.Gaps.{terms_of};
ghost use Rattle.cj_bezier.specs.Squares.{from_zero, least_part, greatest_part, least_square, greatest_square};

use crate::gaps::Gap;
use cj_interval::Span;

/// An end divided by C(6,k), rounded down.
fn part_down(end: i128, choose: u8) -> i128
    requires some { 0 < choose }
    requires within { IsWithin (2 ^ 126) end }
    ensures value { result ≡ floor_div end choose }
    ensures within { IsWithin (2 ^ 126) result }
{
    end.div_euclid(i128::from(choose))
}

/// An end divided by C(6,k), rounded up.
fn part_up(end: i128, choose: u8) -> i128
    requires some { 0 < choose }
    requires within { IsWithin (2 ^ 126) end }
    ensures value { result ≡ ceil_div end choose }
    ensures within { IsWithin (2 ^ 126) result }
{
    -(-end).div_euclid(i128::from(choose))
}

/// The lesser of two lower ends.
fn lesser(gap: &Gap, first: usize, second: usize) -> i128
    requires first_inside { first < 7 }
    requires second_inside { second < 7 }
    ensures value { result ≡ int_min (slice_index_or (lows gap.now.terms) first (pos 0)) (slice_index_or (lows gap.now.terms) second (pos 0)) }
    ensures within { IsWithin (2 ^ 126) result }
{
    gap.terms[first].lo.min(gap.terms[second].lo)
}

/// The greater of two upper ends.
fn greater(gap: &Gap, first: usize, second: usize) -> i128
    requires first_inside { first < 7 }
    requires second_inside { second < 7 }
    ensures value { result ≡ int_max (slice_index_or (highs gap.now.terms) first (pos 0)) (slice_index_or (highs gap.now.terms) second (pos 0)) }
    ensures within { IsWithin (2 ^ 126) result }
{
    gap.terms[first].hi.max(gap.terms[second].hi)
}

/// The lesser of two lower ends, divided by the C(6,k) of both and rounded down.
fn lesser_part(gap: &Gap, first: usize, second: usize, choose: u8) -> i128
    requires first_inside { first < 7 }
    requires second_inside { second < 7 }
    requires some { 0 < choose }
    ensures value { result ≡ int_min (floor_div (slice_index_or (lows gap.now.terms) first (pos 0)) choose) (floor_div (slice_index_or (lows gap.now.terms) second (pos 0)) choose) }
    ensures within { IsWithin (2 ^ 126) result }
{
    part_down(lesser(gap, first, second), choose)
}

/// The greater of two upper ends, divided by the C(6,k) of both and rounded up.
fn greater_part(gap: &Gap, first: usize, second: usize, choose: u8) -> i128
    requires first_inside { first < 7 }
    requires second_inside { second < 7 }
    requires some { 0 < choose }
    ensures value { result ≡ int_max (ceil_div (slice_index_or (highs gap.now.terms) first (pos 0)) choose) (ceil_div (slice_index_or (highs gap.now.terms) second (pos 0)) choose) }
    ensures within { IsWithin (2 ^ 126) result }
{
    part_up(greater(gap, first, second), choose)
}

/// A whole number, or 0 where it is negative.
fn from_zero(z: i128) -> u128
    requires { IsWithin (2 ^ 126) z }
    ensures value { result ≡ from_zero z }
    ensures within { result ≤ 2 ^ 126 }
{
    z.max(0).unsigned_abs()
}

/// A whole number in nm² that the squared distance is not below, as far as a gap shows: the least lower end divided by
/// C(6,k), or 0.
#[tactic(auto, unfolding(crate::specs::Squares::least_part))]
pub fn least_square(gap: &Gap) -> u128
    ensures value { result ≡ least_square (terms_of gap.now.terms) }
    ensures within { result ≤ 2 ^ 126 }
{
    let least = lesser(gap, 0, 6)
        .min(lesser_part(gap, 1, 5, 6))
        .min(lesser_part(gap, 2, 4, 15))
        .min(lesser_part(gap, 3, 3, 20));
    from_zero(least)
}

/// A whole number in nm² that the squared distance does not exceed, as far as a gap shows: the greatest upper end divided
/// by C(6,k), or 0.
#[tactic(auto, unfolding(crate::specs::Squares::greatest_part))]
pub fn greatest_square(gap: &Gap) -> u128
    ensures value { result ≡ greatest_square (terms_of gap.now.terms) }
    ensures within { result ≤ 2 ^ 126 }
{
    let greatest = greater(gap, 0, 6)
        .max(greater_part(gap, 1, 5, 6))
        .max(greater_part(gap, 2, 4, 15))
        .max(greater_part(gap, 3, 3, 20));
    from_zero(greatest)
}
