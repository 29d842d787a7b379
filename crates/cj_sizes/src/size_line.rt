ghost use Rattle.std.specs.Prelude.{◌≤◌};
ghost use Rattle.cj_sizes.specs.Limits.{MAX_RADIUS};

use cj_base::Text;

/// The size of the objects with a designator.
#[derive(Debug, Drop, PartialEq, Eq)]
pub struct SizeLine {
    /// The designator.
    pub id: Text,
    /// The radius in nm.
    pub radius: u64,
    pub ghost within: { radius ≤ MAX_RADIUS },
}
