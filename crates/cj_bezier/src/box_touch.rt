//! Whether two boxes touch.
ghost use Rattle.std.specs.Prelude.{◌≡◌, ◌+◌, ◌&&◌, pos, ◌+ℤ◌, int_le};
ghost use Rattle.cj_bezier.specs.SlotBoxes.{are_touching};

use cj_case::AxisBox;

/// Whether a reach on an axis begins at most a threshold behind the end of another.
fn begins_within(least: i64, most: i64, thr: u64) -> bool
    ensures { result ≡ int_le least (most +ℤ pos thr) }
{
    i128::from(least) <= i128::from(most) + i128::from(thr)
}

/// Whether two reaches on an axis are apart by at most a threshold.
fn reach_touches(least: i64, most: i64, other_least: i64, other_most: i64, thr: u64) -> bool
    ensures { result ≡ (int_le least (other_most +ℤ pos thr) && int_le other_least (most +ℤ pos thr)) }
{
    begins_within(least, other_most, thr) && begins_within(other_least, most, thr)
}

/// Whether two boxes are apart by at most a threshold in nm on each axis.
pub fn box_touches(a: &AxisBox, b: &AxisBox, thr: u64) -> bool
    ensures { result ≡ are_touching thr a.now b.now }
{
    reach_touches(a.least.x, a.most.x, b.least.x, b.most.x, thr)
        && reach_touches(a.least.y, a.most.y, b.least.y, b.most.y, thr)
        && reach_touches(a.least.z, a.most.z, b.least.z, b.most.z, thr)
}
