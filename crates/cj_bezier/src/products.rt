//! Products and differences of boxes.
ghost use Rattle.std.specs.Prelude.{◌≡◌, ◌*◌, pos, ◌*ℤ◌};
ghost use Rattle.cj_hermite.specs.Boxes.{IsSpanWithin, IsBoxWithin};
ghost use Rattle.cj_bezier.specs.Gaps.{IsLess, dot_low, dot_high, span_product_low, span_product_high};
ghost use Rattle.cj_bezier.specs.Sizes.{HULL_REACH, DIFFERENCE_REACH, SQUARE_REACH};

use cj_hermite::Box3;
use cj_interval::Span;

/// The product of the spans of an axis.
fn product(a: Span, b: Span) -> Span
    requires first { IsSpanWithin DIFFERENCE_REACH a.lo a.hi }
    requires second { IsSpanWithin DIFFERENCE_REACH b.lo b.hi }
    ensures lower { result.lo ≡ span_product_low a b }
    ensures upper { result.hi ≡ span_product_high a b }
    ensures within { IsSpanWithin SQUARE_REACH result.lo result.hi }
{
    a.mul(b)
}

/// The product of two boxes, summed over the axes.
pub(crate) fn dot(a: &Box3, b: &Box3) -> Span
    requires first { IsBoxWithin DIFFERENCE_REACH a.now }
    requires second { IsBoxWithin DIFFERENCE_REACH b.now }
    ensures lower { result.lo ≡ dot_low a.now b.now }
    ensures upper { result.hi ≡ dot_high a.now b.now }
    ensures within { IsSpanWithin (3 * SQUARE_REACH) result.lo result.hi }
{
    product(a.x, b.x)
        .add(product(a.y, b.y))
        .add(product(a.z, b.z))
}

/// Six times the product of two boxes.
pub(crate) fn sixfold(a: &Box3, b: &Box3) -> Span
    requires first { IsBoxWithin DIFFERENCE_REACH a.now }
    requires second { IsBoxWithin DIFFERENCE_REACH b.now }
    ensures lower { result.lo ≡ pos 6 *ℤ dot_low a.now b.now }
    ensures upper { result.hi ≡ pos 6 *ℤ dot_high a.now b.now }
    ensures within { IsSpanWithin (18 * SQUARE_REACH) result.lo result.hi }
{
    dot(a, b).scale(6)
}

/// Nine times the product of two boxes.
pub(crate) fn ninefold(a: &Box3, b: &Box3) -> Span
    requires first { IsBoxWithin DIFFERENCE_REACH a.now }
    requires second { IsBoxWithin DIFFERENCE_REACH b.now }
    ensures lower { result.lo ≡ pos 9 *ℤ dot_low a.now b.now }
    ensures upper { result.hi ≡ pos 9 *ℤ dot_high a.now b.now }
    ensures within { IsSpanWithin (27 * SQUARE_REACH) result.lo result.hi }
{
    dot(a, b).scale(9)
}

/// The difference of two boxes.
pub(crate) fn less(a: &Box3, b: &Box3) -> Box3
    requires first { IsBoxWithin HULL_REACH a.now }
    requires second { IsBoxWithin HULL_REACH b.now }
    ensures value { IsLess result a.now b.now }
    ensures within { IsBoxWithin DIFFERENCE_REACH result }
{
    Box3 {
        x: a.x.sub(b.x),
        y: a.y.sub(b.y),
        z: a.z.sub(b.z),
    }
}
