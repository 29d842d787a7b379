//! What a gap says of the distance: which kinds it supports, and its verdict.
ghost use Rattle.std.specs.Prelude.{◌≡◌, ◌≢◌, ◌↔◌, IsTrue, IfSome, ℕ, ◌*◌, ◌+◌, ◌^◌, ◌≤◌, pos};
ghost use Rattle.cj_hermite.specs.Interpolant.{Curve};
ghost use Rattle.cj_bezier.specs.Hulls.{lows, highs};
ghost use Rattle.cj_bezier.specs.Gaps.{terms_of, IsGapOver};
ghost use Rattle.cj_bezier.specs.Verdicts.{are_above, are_at_least, are_at_most};
ghost use Rattle.cj_bezier.specs.Verdicts.{supported, verdict_of, kind_of, Supports, HoldsThroughout};

use crate::gaps::Gap;
use crate::verdicts::Verdict;
use cj_case::{BAND, Kind};
use cj_interval::Span;

/// C(6,k): the coefficients of the constant 1 in Bernstein form of degree 6.
const CHOOSE: [u8; 7] = [1, 6, 15, 20, 15, 6, 1];

/// The square of a distance.
fn squared(e: u64) -> u128
    requires { e ≤ 2 * 10 ^ 16 }
    ensures value { result ≡ e * e }
    ensures small { result ≤ 10 ^ 33 }
{
    let wide = u128::from(e);
    wide * wide
}

/// A coefficient's part of a square.
fn share(choose: u8, square: u128) -> i128
    requires { square ≤ 10 ^ 33 }
    ensures { result ≡ pos (choose * square) }
{
    (u128::from(choose) * square) as i128
}

/// Whether each lower end exceeds its share of the square of `e`.
fn are_above(terms: &[Span; 7], e: u64) -> bool
    requires { e ≤ 2 * 10 ^ 16 }
    ensures { result ≡ are_above (lows terms.now) e }
{
    let square = squared(e);
    terms
        .iter()
        .zip(&CHOOSE)
        .all(|(term, choose)| share(*choose, square) < term.lo)
}

/// Whether each lower end is at least its share of the square of `e`.
fn are_at_least(terms: &[Span; 7], e: u64) -> bool
    requires { e ≤ 2 * 10 ^ 16 }
    ensures { result ≡ are_at_least (lows terms.now) e }
{
    let square = squared(e);
    terms
        .iter()
        .zip(&CHOOSE)
        .all(|(term, choose)| share(*choose, square) <= term.lo)
}

/// Whether each upper end is at most its share of the square of `e`.
fn are_at_most(terms: &[Span; 7], e: u64) -> bool
    requires { e ≤ 2 * 10 ^ 16 }
    ensures { result ≡ are_at_most (highs terms.now) e }
{
    let square = squared(e);
    terms
        .iter()
        .zip(&CHOOSE)
        .all(|(term, choose)| term.hi <= share(*choose, square))
}

/// Whether a gap supports a kind against a threshold in nm.
pub fn supports(gap: &Gap, thr: u64, kind: Kind) -> bool
    requires least { 10 ^ 9 ≤ thr }
    requires most { thr ≤ 10 ^ 16 }

    ensures value { result ≡ supported (terms_of gap.now.terms) thr kind }
    ensures exact { IsTrue result ↔ Supports (terms_of gap.now.terms) thr kind }

    // What is supported by the gap of two interpolants' hulls holds of their distance at each tick.
    ensures law { (a b : Curve) (first last : ℕ) → IsGapOver (terms_of gap.now.terms) a b first last
        → IsTrue result → HoldsThroughout kind a b thr first last }
{
    match kind {
        Kind::Far => are_above(&gap.terms, thr),
        Kind::Near => are_at_most(&gap.terms, thr),
        Kind::Undecided => {
            are_at_least(&gap.terms, thr - BAND) && are_at_most(&gap.terms, thr + BAND)
        }
    }
}

/// The verdict of a gap against a threshold in nm.
pub fn verdict(gap: &Gap, thr: u64) -> Verdict
    requires least { 10 ^ 9 ≤ thr }
    requires most { thr ≤ 10 ^ 16 }

    ensures value { result ≡ verdict_of (terms_of gap.now.terms) thr }

    // The verdict on the gap of two interpolants' hulls holds of their distance at each tick.
    ensures law { (a b : Curve) (first last : ℕ) → IsGapOver (terms_of gap.now.terms) a b first last
        → IfSome (kind_of result) (λ kind. HoldsThroughout kind a b thr first last) }

    // One tick is never split.
    ensures one_tick { (a b : Curve) (m : ℕ) → IsGapOver (terms_of gap.now.terms) a b m m → result ≢ Verdict.Split }
{
    if supports(gap, thr, Kind::Far) {
        Verdict::Far
    } else if supports(gap, thr, Kind::Near) {
        Verdict::Near
    } else if supports(gap, thr, Kind::Undecided) {
        Verdict::Undecided
    } else {
        Verdict::Split
    }
}
