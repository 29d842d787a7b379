//! Covariances in order of epoch.
ghost use Rattle.std.specs.Prelude.{◌≡◌, ◌<◌, ◌≤◌, IfOk, length, map, option_map, slice_index_or};
ghost use Rattle.cj_track.specs.Tracks.{plain_matrix};
ghost use Rattle.cj_cdm.specs.Covariances as spec;
ghost use Rattle.cj_cdm.specs.Covariances.{not_after};
ghost use Rattle.cj_cdm.specs.Dated.{AreDated, AreInOrder, AreReached, dated_from};

use crate::dated::Dated;
use cj_base::Tick;
use cj_track::Matrix;
use std::alloc::{AllocError, Global};

/// Covariances in order of epoch.
pub(crate) fn in_order(alloc: Global, matrices: &[Matrix]) -> Result<Vec<Dated>, AllocError>
    ensures { IfOk result (λ dated. AreDated matrices.now dated.items) }
{
    let mut dated = as_they_stand(alloc, matrices)?;
    dated.sort_unstable();
    Ok(dated)
}

/// Covariances as they stand in the file.
fn as_they_stand(alloc: Global, matrices: &[Matrix]) -> Result<Vec<Dated>, AllocError>
    ensures { IfOk result (λ dated. dated.items ≡ dated_from 0 matrices.now) }
{
    let mut dated = Vec::with_capacity(alloc, matrices.len())?;
    for (place, matrix) in matrices.iter().enumerate() {
        dated.push(Dated {
            at: matrix.at,
            place,
        })?;
    }
    Ok(dated)
}

/// The latest that is not after the tick, the last of equals.
pub(crate) fn latest<'a>(matrices: &'a [Matrix], dated: &[Dated], at: Tick) -> Option<&'a Matrix>
    requires { AreDated matrices.now dated.now }
    ensures { option_map (λ m. plain_matrix m.now) result ≡ spec.latest (not_after at.micros (map plain_matrix matrices.now)) }
{
    let last = reached(dated, at).checked_sub(1)?;
    Some(at_place(matrices, dated[last].place))
}

/// The covariance at a place.
fn at_place(matrices: &[Matrix], place: usize) -> &Matrix
    requires { place < length matrices.now }
    ensures { result.now ≡ slice_index_or matrices.now place result.now }
{
    &matrices[place]
}

/// How many are not after the tick.
fn reached(dated: &[Dated], at: Tick) -> usize
    requires { AreInOrder dated.now }
    ensures bound { result ≤ length dated.now }
    ensures reached { AreReached at.micros result dated.now }
{
    dated.partition_point(|dated| dated.at <= at)
}
