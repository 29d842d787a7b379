ghost use Rattle.std.specs.Prelude.{◌≤ℤ◌};

use cj_track::Vec3;

/// A box along the axes, by its least and its greatest corner in nm.
#[derive(Clone, Copy, Debug, PartialEq, Eq)]
pub struct AxisBox {
    pub least: Vec3,
    pub most: Vec3,
    pub ghost x_ordered: { least.x ≤ℤ most.x },
    pub ghost y_ordered: { least.y ≤ℤ most.y },
    pub ghost z_ordered: { least.z ≤ℤ most.z },
}
