//! Whether two shells are parted.
ghost use Rattle.std.specs.Prelude.{◌≡◌, ℕ, ◌^◌, ◌<◌, ◌≤◌, IsTrue};
ghost use Rattle.cj_hermite.specs.Interpolant.{Curve};
ghost use Rattle.cj_hermite.specs.Distance.{IsFar};
ghost use Rattle.cj_bezier.specs.Shells.{IsRadiusWithin, are_parted};

use cj_case::Shell;

/// Whether two shells are more than a threshold in nm apart: the greater inner radius exceeds the smaller outer one by more.
pub fn parted(a: Shell, b: Shell, thr: u64) -> bool
    requires least { 10 ^ 9 ≤ thr }
    requires most { thr ≤ 10 ^ 16 }

    ensures value { result ≡ are_parted a b thr }

    // Interpolants in parted shells are far apart.
    ensures law { (c d : Curve) (m : ℕ) → 0 < c.span → 0 < d.span → IsRadiusWithin c m a.lo a.hi → IsRadiusWithin d m b.lo b.hi
        → IsTrue result → IsFar c d thr m }
{
    let inner = a.lo.max(b.lo);
    let outer = a.hi.min(b.hi);
    u128::from(outer) + u128::from(thr) < u128::from(inner)
}
