//! The covariances of a problem.
use crate::covariances::object_covariance;
use crate::indexing::indexed;
use crate::track_covariances::TrackCovariances;
use cj_base::Tick;
use cj_case::Problem;
use cj_track::Matrix;
use std::alloc::{AllocError, Global};
use std::marker::Model;

/// A problem whose objects' covariances are to be found at many ticks. Those of the objects that are chosen are put in order once, so
/// that none is searched from its front at each tick.
#[derive(Drop)]
pub struct CovarianceIndex<'p> {
    problem: &'p Problem,
    tracks: Vec<Option<TrackCovariances<'p>>>,
}

impl<'p> Model for CovarianceIndex<'p> {
    ghost use Rattle.cj_case.specs.declared.problem.Problem.{Problem};
    ghost use Rattle.cj_cdm.specs.Indexed.{AreOfTracks};

    ghost Value = { Problem };

    ghost view = { λ i. i.problem.now };

    ghost invariant = { λ i. AreOfTracks i.problem.now.tracks i.tracks.items };
}

impl<'p> CovarianceIndex<'p> {
    ghost use Rattle.std.specs.Prelude.{◌≡◌, IfOk, IfSome, Some, option_map, slice_get};
    ghost use Rattle.cj_track.specs.Tracks.{plain_matrix};
    ghost use Rattle.cj_case.specs.Problems.{plain_problem};
    ghost use Rattle.cj_cdm.specs.Building as spec;

    /// An index of the objects that are marked.
    pub fn new(alloc: Global, problem: &'p Problem, marked: &[bool]) -> Result<Self, AllocError>
        ensures { IfOk result (λ index. index ≡ problem.now) }
    {
        let tracks = indexed(alloc, problem.tracks.as_slice(), marked)?;
        Ok(CovarianceIndex { problem, tracks })
    }

    pub(crate) fn problem(&self) -> &Problem
        ensures { result.now ≡ self.now }
    {
        self.problem
    }

    /// The covariance of an object for a tick, or none where it has no state there or its segment has no covariance.
    pub(crate) fn at(&self, object: u32, at: Tick) -> Option<&Matrix>
        ensures { option_map (λ m. plain_matrix m.now) result ≡ spec.object_covariance (plain_problem self.now) object at.micros }
    {
        match self.indexed(object) {
            Some(covariances) => covariances.at(at),
            None => object_covariance(self.problem(), object, at),
        }
    }

    /// The covariances of an object that is marked.
    fn indexed(&self, object: u32) -> Option<&TrackCovariances<'p>>
        ensures { IfSome result (λ covariances. slice_get self.now.tracks object ≡ Some covariances.now) }
    {
        self.tracks.get(object as usize)?.as_ref()
    }
}
