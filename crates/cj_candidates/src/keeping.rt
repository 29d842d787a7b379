//! Of pairs those that the filter of perigee and apogee keeps.
ghost use Rattle.std.specs.Prelude.{◌≡◌, ◌<◌, length, map, filter, All, IfOk};
ghost use Rattle.cj_case.specs.Pairs.{objects_of};
ghost use Rattle.cj_sieve.specs.Among.{keeps_among};

use cj_case::Pair;
use cj_sieve::{ShelledObjects, keeps};
use std::alloc::{AllocError, Global};

/// Of these pairs those that are kept, in the same order.
pub fn kept_of(
    alloc: Global,
    pairs: &[Pair],
    objects: &ShelledObjects<'_>,
) -> Result<Vec<Pair>, AllocError>
    requires { All (λ pair. pair.b < length objects.now.shells.now) pairs.now }
    ensures { IfOk result (λ kept. map objects_of kept.items ≡ filter (keeps_among objects.now) (map objects_of pairs.now)) }
{
    let mut kept = Vec::with_capacity(alloc, pairs.len())?;
    for pair in pairs {
        if keeps(objects, *pair) {
            kept.push(*pair)?;
        }
    }
    Ok(kept)
}
