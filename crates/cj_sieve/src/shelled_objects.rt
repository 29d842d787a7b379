ghost use Rattle.std.specs.Prelude.{◌≡◌, ◌^◌, ◌≤◌, length, All};
ghost use Rattle.cj_base.specs.Bounds.{MOST_OBJECTS};
ghost use Rattle.cj_case.specs.CaseLimits.{MAX_SIZE};

use cj_case::{Primaries, Shell};

/// The objects whose pairs are filtered.
#[derive(Clone, Copy)]
pub struct ShelledObjects<'s> {
    /// The shell of each object, where it has one.
    pub shells: &'s [Option<Shell>],
    /// The size of each in nm.
    pub sizes: &'s [u64],
    /// Those whose pairs are looked at.
    pub primaries: &'s Primaries,
    /// The threshold of the run in nm, without sizes.
    pub thr: u64,
    pub ghost few: { length shells.now ≤ MOST_OBJECTS },
    pub ghost sized: { length sizes.now ≡ length shells.now },
    pub ghost small: { All (λ size. size ≤ MAX_SIZE) sizes.now },
    pub ghost least: { 10 ^ 9 ≤ thr },
    pub ghost most: { thr ≤ 10 ^ 15 },
}
