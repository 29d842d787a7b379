//! The gap round two gaps.
ghost use Rattle.std.specs.Prelude.{◌≡◌, ℕ, ◌^◌, ◌-◌, ◌<◌, ◌↔◌, pos, slice_index_or};
ghost use Rattle.std.specs.Int.{int_min, int_max};
ghost use Rattle.cj_bezier.specs.Gaps.{terms_of};
ghost use Rattle.cj_bezier.specs.Hulls.{lows, highs};
ghost use Rattle.cj_bezier.specs.Shells.{IsInner, IsOuter};
ghost use Rattle.cj_bezier.specs.Sizes.{HasEndsWithin};
ghost use Rattle.cj_walk.specs.JoinedGaps.{lesser, greater};

use cj_bezier::Gap;
use cj_interval::Span;

/// The least span round two.
fn both(a: Span, b: Span) -> Span
    requires a { HasEndsWithin (2 ^ 126 - 1) a }
    requires b { HasEndsWithin (2 ^ 126 - 1) b }
    ensures lower { result.lo ≡ int_min a.lo b.lo }
    ensures upper { result.hi ≡ int_max a.hi b.hi }
    ensures within { HasEndsWithin (2 ^ 126 - 1) result }
{
    Span {
        lo: a.lo.min(b.lo),
        hi: a.hi.max(b.hi),
    }
}

/// The least span round the coefficients of two gaps at one place.
fn both_at(a: &Gap, b: &Gap, index: usize) -> Span
    requires inside { index < 7 }
    ensures lower { result.lo ≡ int_min (slice_index_or (lows a.now.terms) index (pos 0)) (slice_index_or (lows b.now.terms) index (pos 0)) }
    ensures upper { result.hi ≡ int_max (slice_index_or (highs a.now.terms) index (pos 0)) (slice_index_or (highs b.now.terms) index (pos 0)) }
    ensures within { HasEndsWithin (2 ^ 126 - 1) result }
{
    both(a.terms[index], b.terms[index])
}

/// The least gap round two, coefficient by coefficient.
pub(crate) fn join_gaps(a: Gap, b: &Gap) -> Gap
    ensures lower { lows result.terms ≡ lesser (lows a.terms) (lows b.now.terms) }
    ensures upper { highs result.terms ≡ greater (highs a.terms) (highs b.now.terms) }

    // It shows those radii that both show.
    ensures inner { (r : ℕ) → IsInner (terms_of result.terms) r ↔ (IsInner (terms_of a.terms) r × IsInner (terms_of b.now.terms) r) }
    ensures outer { (r : ℕ) → IsOuter (terms_of result.terms) r ↔ (IsOuter (terms_of a.terms) r × IsOuter (terms_of b.now.terms) r) }
{
    Gap {
        terms: [
            both_at(&a, b, 0),
            both_at(&a, b, 1),
            both_at(&a, b, 2),
            both_at(&a, b, 3),
            both_at(&a, b, 4),
            both_at(&a, b, 5),
            both_at(&a, b, 6),
        ],
    }
}
