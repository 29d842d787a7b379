//! The least boxes round a hull and round two boxes.
ghost use Rattle.std.specs.Prelude.{◌≡◌, ℕ};
ghost use Rattle.std.specs.Int.{int_min, int_max};
ghost use Rattle.cj_hermite.specs.Boxes.{IsBoxWithin};
ghost use Rattle.cj_bezier.specs.Hulls.{axes_of};
ghost use Rattle.cj_bezier.specs.Sizes.{HULL_REACH};
ghost use Rattle.cj_bezier.specs.SlotBoxes.{round_two};
ghost use Rattle.cj_bezier.specs.JoinedBoxes.{reaches_of_hull, reaches_of_spans};

use cj_bezier::Hull;
use cj_hermite::Box3;
use cj_interval::Span;

/// The least span round two.
fn join_spans(a: Span, b: Span) -> Span
    ensures lower { result.lo ≡ int_min a.lo b.lo }
    ensures upper { result.hi ≡ int_max a.hi b.hi }
{
    Span {
        lo: a.lo.min(b.lo),
        hi: a.hi.max(b.hi),
    }
}

/// The least box round two.
pub(crate) fn join_boxes(a: Box3, b: Box3) -> Box3
    ensures value { reaches_of_spans result ≡ round_two (reaches_of_spans a) (reaches_of_spans b) }
    ensures within { (m : ℕ) → IsBoxWithin m a → IsBoxWithin m b → IsBoxWithin m result }
{
    Box3 {
        x: join_spans(a.x, b.x),
        y: join_spans(a.y, b.y),
        z: join_spans(a.z, b.z),
    }
}

/// The least box round a hull.
pub(crate) fn box_of_hull(hull: &Hull) -> Box3
    ensures value { reaches_of_spans result ≡ reaches_of_hull (axes_of hull.now.points) }
    ensures within { IsBoxWithin HULL_REACH result }
{
    let [a, b, c, d] = hull.points;
    join_boxes(join_boxes(a, b), join_boxes(c, d))
}
