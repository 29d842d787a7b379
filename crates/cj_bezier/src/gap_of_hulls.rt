//! The gap of two hulls, and of a hull against the origin. A product of two boxes does not depend on their order, so each is
//! made once.
ghost use Rattle.std.specs.Prelude.{◌≡◌, ◌*◌, pos, ◌+ℤ◌, ◌*ℤ◌, [], ◌∷◌};
ghost use Rattle.cj_hermite.specs.Boxes.{IsSpanWithin, IsBoxWithin};
ghost use Rattle.cj_bezier.specs.Hulls.{axes_of};
ghost use Rattle.cj_bezier.specs.Gaps.{apart_axes, dot_low, dot_high, terms_of, gap_terms};
ghost use Rattle.cj_bezier.specs.Sizes.{DIFFERENCE_REACH, SQUARE_REACH};

use crate::gaps::Gap;
use crate::hulls::Hull;
use crate::products::{dot, less, ninefold, sixfold};
use cj_hermite::Box3;
use cj_interval::Span;

/// Coefficients 2 and 4, of three neighbouring boxes.
fn triple_term(a: &Box3, b: &Box3, c: &Box3) -> Span
    requires first { IsBoxWithin DIFFERENCE_REACH a.now }
    requires second { IsBoxWithin DIFFERENCE_REACH b.now }
    requires third { IsBoxWithin DIFFERENCE_REACH c.now }
    ensures lower { result.lo ≡ pos 6 *ℤ dot_low a.now c.now +ℤ pos 9 *ℤ dot_low b.now b.now }
    ensures upper { result.hi ≡ pos 6 *ℤ dot_high a.now c.now +ℤ pos 9 *ℤ dot_high b.now b.now }
    ensures within { IsSpanWithin (45 * SQUARE_REACH) result.lo result.hi }
{
    sixfold(a, c).add(ninefold(b, b))
}

/// Coefficient 3, of all four boxes.
fn middle_term(d0: &Box3, d1: &Box3, d2: &Box3, d3: &Box3) -> Span
    requires b0 { IsBoxWithin DIFFERENCE_REACH d0.now }
    requires b1 { IsBoxWithin DIFFERENCE_REACH d1.now }
    requires b2 { IsBoxWithin DIFFERENCE_REACH d2.now }
    requires b3 { IsBoxWithin DIFFERENCE_REACH d3.now }
    ensures lower { result.lo ≡ pos 2 *ℤ dot_low d0.now d3.now +ℤ pos 18 *ℤ dot_low d1.now d2.now }
    ensures upper { result.hi ≡ pos 2 *ℤ dot_high d0.now d3.now +ℤ pos 18 *ℤ dot_high d1.now d2.now }
    ensures within { IsSpanWithin (60 * SQUARE_REACH) result.lo result.hi }
{
    dot(d0, d3).add(ninefold(d1, d2)).scale(2)
}

/// The gap of four boxes against the origin.
fn square(d0: &Box3, d1: &Box3, d2: &Box3, d3: &Box3) -> Gap
    requires b0 { IsBoxWithin DIFFERENCE_REACH d0.now }
    requires b1 { IsBoxWithin DIFFERENCE_REACH d1.now }
    requires b2 { IsBoxWithin DIFFERENCE_REACH d2.now }
    requires b3 { IsBoxWithin DIFFERENCE_REACH d3.now }
    ensures { terms_of result.terms ≡ gap_terms (axes_of (d0.now ∷ d1.now ∷ d2.now ∷ d3.now ∷ [])) }
{
    Gap {
        terms: [
            dot(d0, d0),
            sixfold(d0, d1),
            triple_term(d0, d1, d2),
            middle_term(d0, d1, d2, d3),
            triple_term(d1, d2, d3),
            sixfold(d2, d3),
            dot(d3, d3),
        ],
    }
}

/// The gap of two hulls: the squares of their differences.
pub fn gap(a: &Hull, b: &Hull) -> Gap
    ensures { terms_of result.terms ≡ gap_terms (apart_axes (axes_of a.now.points) (axes_of b.now.points)) }
{
    let d0 = less(&a.points[0], &b.points[0]);
    let d1 = less(&a.points[1], &b.points[1]);
    let d2 = less(&a.points[2], &b.points[2]);
    let d3 = less(&a.points[3], &b.points[3]);
    square(&d0, &d1, &d2, &d3)
}

/// The gap of a hull against the origin.
pub fn gap_origin(a: &Hull) -> Gap
    ensures { terms_of result.terms ≡ gap_terms (axes_of a.now.points) }
{
    square(&a.points[0], &a.points[1], &a.points[2], &a.points[3])
}
