//! The covariances of a track.
use crate::segment_covariances::SegmentCovariances;
use cj_base::Tick;
use cj_hermite::{piece_at, segment_of};
use cj_track::{Matrix, Track};
use std::alloc::{AllocError, Global};
use std::marker::Model;

/// The covariances of each segment of a track.
#[derive(Drop)]
pub(crate) struct TrackCovariances<'p> {
    track: &'p Track,
    segments: Vec<SegmentCovariances<'p>>,
}

impl<'p> Model for TrackCovariances<'p> {
    ghost use Rattle.std.specs.Prelude.{◌≡◌, map};
    ghost use Rattle.cj_track.specs.declared.track.Track.{Track};

    ghost Value = { Track };

    ghost view = { λ t. t.track.now };

    ghost invariant = { λ t. t.segments.items ≡ map (λ s. s.matrices) t.track.now.segments };
}

impl<'p> TrackCovariances<'p> {
    ghost use Rattle.std.specs.Prelude.{◌≡◌, IfOk, map, option_map};
    ghost use Rattle.cj_track.specs.Tracks.{plain_matrix, plain_track};
    ghost use Rattle.cj_cdm.specs.Covariances as spec;

    pub(crate) fn new(alloc: Global, track: &'p Track) -> Result<Self, AllocError>
        ensures { IfOk result (λ covariances. covariances ≡ track.now) }
    {
        let listed = track.segments.as_slice();
        let mut segments = Vec::with_capacity(alloc, listed.len())?;
        for segment in listed {
            segments.push(SegmentCovariances::new(alloc, segment.matrices.as_slice())?)?;
        }
        Ok(TrackCovariances { track, segments })
    }

    /// The covariance for a tick, or none where the track has no state there or its segment has no covariance.
    #[tactic(auto, unfolding(crate::specs::Covariances::covariance_at))]
    pub(crate) fn at(&self, at: Tick) -> Option<&Matrix>
        ensures { option_map (λ m. plain_matrix m.now) result ≡ spec.covariance_at (plain_track self.now) at.micros }
    {
        let index = piece_at(self.track, at)?;
        self.segments[segment_of(self.track, index) as usize].at(at)
    }
}
