//! The shell of a hull, and the least shell round two.
ghost use Rattle.std.specs.Prelude.{◌≡◌, ℕ, ◌≤◌, min, max};
ghost use Rattle.cj_hermite.specs.Interpolant.{Curve, IsOver};
ghost use Rattle.cj_bezier.specs.Hulls.{axes_of, hull_axes};
ghost use Rattle.cj_bezier.specs.Gaps.{gap_terms};
ghost use Rattle.cj_bezier.specs.Shells.{IsInner, IsOuter, IsRadiusWithin};

use crate::gap_of_hulls::gap_origin;
use crate::hulls::Hull;
use crate::squares::{greatest_square, least_square};
use cj_case::Shell;
use cj_interval::{isqrt_down, isqrt_up};

/// The shell of a hull: the greatest inner and the least outer radius that its gap against the origin shows.
pub fn radius(hull: &Hull) -> Shell
    ensures inner { IsInner (gap_terms (axes_of hull.now.points)) result.lo }
    ensures greatest { (r : ℕ) → IsInner (gap_terms (axes_of hull.now.points)) r → r ≤ result.lo }
    ensures outer { IsOuter (gap_terms (axes_of hull.now.points)) result.hi }
    ensures least { (r : ℕ) → IsOuter (gap_terms (axes_of hull.now.points)) r → result.hi ≤ r }
    ensures ordered { result.lo ≤ result.hi }

    // The shell of an interpolant's hull holds its distance from the origin at each tick.
    ensures law { (c : Curve) (first last m : ℕ) → IsOver c first last
        → axes_of hull.now.points ≡ hull_axes c first last
        → first ≤ m → m ≤ last → IsRadiusWithin c m result.lo result.hi }
{
    let gap = gap_origin(hull);
    Shell {
        lo: isqrt_down(least_square(&gap)),
        hi: isqrt_up(greatest_square(&gap)),
    }
}

/// The least shell round two.
pub fn join(a: Shell, b: Shell) -> Shell
    ensures inner { result.lo ≡ min a.lo b.lo }
    ensures outer { result.hi ≡ max a.hi b.hi }
{
    Shell {
        lo: a.lo.min(b.lo),
        hi: a.hi.max(b.hi),
    }
}
