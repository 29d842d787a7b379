//! What the hulls of an object are to meet: the radii of its shell, and its boxes.
ghost use Rattle.std.specs.Prelude.{◌≡◌, ◌*◌};
ghost use Rattle.cj_bezier.specs.Hulls.{axes_of};
ghost use Rattle.cj_case.specs.Boxes.{plain_box};
ghost use Rattle.cj_checker.specs.Bounds.{is_point_in, is_above, is_below};
ghost use Rattle.cj_checker.specs.Tests.{is_hull_in as lies_in, shows_radii as shows};

use cj_bezier::{Hull, gap_origin, greatest_square, least_square};
use cj_case::{AxisBox, Shell};
use cj_hermite::Box3;
use cj_track::Vec3;

fn square(radius: u64) -> u128
    ensures { result ≡ radius * radius }
{
    u128::from(radius) * u128::from(radius)
}

/// Whether the gap of a hull against the origin shows both radii.
pub(crate) fn shows_radii(shell: Shell, hull: &Hull) -> bool
    ensures { result ≡ shows shell (axes_of hull.now.points) }
{
    let gap = gap_origin(hull);
    square(shell.lo) <= least_square(&gap) && greatest_square(&gap) <= square(shell.hi)
}

/// Whether a hull lies in a box.
pub(crate) fn is_hull_in(area: &AxisBox, hull: &Hull) -> bool
    ensures { result ≡ lies_in (plain_box area.now) (axes_of hull.now.points) }
{
    hull.points.iter().all(|point| is_point_in(area, point))
}

/// Whether a control point lies in a box.
fn is_point_in(area: &AxisBox, point: &Box3) -> bool
    ensures { result ≡ is_point_in area.now point.now }
{
    is_above(&area.least, point) && is_below(&area.most, point)
}

/// Whether a place is at most the lower end of a box on each axis.
fn is_above(least: &Vec3, point: &Box3) -> bool
    ensures { result ≡ is_above least.now point.now }
{
    i128::from(least.x) <= point.x.lo
        && i128::from(least.y) <= point.y.lo
        && i128::from(least.z) <= point.z.lo
}

/// Whether a place is at least the upper end of a box on each axis.
fn is_below(most: &Vec3, point: &Box3) -> bool
    ensures { result ≡ is_below most.now point.now }
{
    point.x.hi <= i128::from(most.x)
        && point.y.hi <= i128::from(most.y)
        && point.z.hi <= i128::from(most.z)
}
