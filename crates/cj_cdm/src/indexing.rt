//! The covariances of chosen tracks.
ghost use Rattle.std.specs.Prelude.{◌≡◌, IfOk, IfSome, false, slice_get};
ghost use Rattle.std.specs.Option.{unwrap_or};
ghost use Rattle.cj_cdm.specs.Indexed.{AreOfTracks};

use crate::track_covariances::TrackCovariances;
use cj_track::Track;
use std::alloc::{AllocError, Global};

/// The covariances of each of these tracks that is marked.
pub(crate) fn indexed<'p>(
    alloc: Global,
    tracks: &'p [Track],
    marked: &[bool],
) -> Result<Vec<Option<TrackCovariances<'p>>>, AllocError>
    ensures { IfOk result (λ indexed. AreOfTracks tracks.now indexed.items) }
{
    let mut indexed = Vec::with_capacity(alloc, tracks.len())?;
    for (object, track) in tracks.iter().enumerate() {
        let wanted = is_marked(marked, object);
        indexed.push(covariances_if(alloc, wanted, track)?)?;
    }
    Ok(indexed)
}

/// Whether there is a mark with this number, and it is set.
fn is_marked(marked: &[bool], object: usize) -> bool
    ensures { result ≡ unwrap_or (slice_get marked.now object) false }
{
    object < marked.len() && marked[object]
}

/// The covariances of a track, where they are wanted.
fn covariances_if(
    alloc: Global,
    wanted: bool,
    track: &Track,
) -> Result<Option<TrackCovariances<'_>>, AllocError>
    ensures { IfOk result (λ covariances. IfSome covariances (λ of_track. of_track ≡ track.now)) }
{
    if !wanted {
        return Ok(None);
    }
    Ok(Some(TrackCovariances::new(alloc, track)?))
}
