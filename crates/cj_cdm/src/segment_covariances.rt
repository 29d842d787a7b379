//! The covariances of a segment.
use crate::dated::Dated;
use crate::dating::{in_order, latest};
use cj_base::Tick;
use cj_track::Matrix;
use std::alloc::{AllocError, Global};
use std::marker::Model;

/// The covariances of a segment, of which the one for a tick is found without a look at all.
#[derive(Drop)]
pub(crate) struct SegmentCovariances<'p> {
    matrices: &'p [Matrix],
    dated: Vec<Dated>,
}

impl<'p> Model for SegmentCovariances<'p> {
    ghost use Rattle.std.specs.Prelude.{List};
    ghost use Rattle.cj_track.specs.declared.matrix.Matrix.{Matrix};
    ghost use Rattle.cj_cdm.specs.Dated.{AreDated};

    ghost Value = { List Matrix };

    ghost view = { λ s. s.matrices.now };

    ghost invariant = { λ s. AreDated s.matrices.now s.dated.items };
}

impl<'p> SegmentCovariances<'p> {
    ghost use Rattle.std.specs.Prelude.{◌≡◌, IfOk, map, option_map};
    ghost use Rattle.cj_track.specs.Tracks.{plain_matrix};
    ghost use Rattle.cj_cdm.specs.Covariances as spec;

    pub(crate) fn new(alloc: Global, matrices: &'p [Matrix]) -> Result<Self, AllocError>
        ensures { IfOk result (λ covariances. covariances ≡ matrices.now) }
    {
        let dated = in_order(alloc, matrices)?;
        Ok(SegmentCovariances { matrices, dated })
    }

    /// The latest that is not after the tick, the last of equals, and else the first.
    #[tactic(auto, unfolding(crate::specs::Covariances::covariance_for))]
    pub(crate) fn at(&self, at: Tick) -> Option<&Matrix>
        ensures { option_map (λ m. plain_matrix m.now) result ≡ spec.covariance_for at.micros (map plain_matrix self.now) }
    {
        latest(self.matrices, &self.dated, at).or(self.matrices.first())
    }
}
