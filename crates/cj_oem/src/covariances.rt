//! The covariances of a segment, as they are read.
ghost use Rattle.std.specs.Prelude.{◌≡◌, ◌^◌, ◌<◌, length, map};
ghost use Rattle.cj_kvn.specs.Ranges.{IsWithin, text_at};
ghost use Rattle.cj_kvn.specs.Faults.{Follows, Tells};

use crate::draft::CovarianceDraft;
use crate::word::parse_epoch;
use cj_formats::OemCause;
use cj_kvn::{Range32, Refused};
use cj_track::Matrix;
use std::alloc::Global;

/// The covariances of a segment so far: those that are whole and in the frame RTN, and the one that is being read.
#[derive(Drop)]
pub(crate) struct Covariances {
    whole: Vec<Matrix>,
    draft: Option<CovarianceDraft>,
}

impl Covariances {
    ghost use Rattle.cj_oem.specs.CovarianceRows as spec;
    ghost use Rattle.cj_oem.specs.Drafts.{covariances_of, with_draft};
    ghost use Rattle.cj_track.specs.Tracks.{plain_matrix};

    pub(crate) fn new(alloc: Global) -> Self
        ensures { covariances_of result ≡ spec.NO_COVARIANCES }
    {
        Covariances {
            whole: Vec::new(alloc),
            draft: None,
        }
    }

    /// Follows a pair: the epoch of a matrix, or its frame.
    #[tactic(auto, unfolding(crate::specs::CovarianceRows::with_matrix_pair))]
    pub(crate) fn pair(&mut self, key: &[u8], value: &[u8]) -> Result<(), Refused<OemCause>>
        ensures { Follows (λ _. covariances_of self.new) result (spec.with_matrix_pair (covariances_of self.old) key.now value.now) }
    {
        if key == b"EPOCH".as_slice() {
            self.begin(value)
        } else if key == b"COV_REF_FRAME".as_slice() {
            self.frame(value)?;
            Ok(())
        } else {
            Err(Refused::Because(OemCause::Unknown))
        }
    }

    /// Follows the next row of a matrix.
    #[tactic(auto, unfolding(crate::specs::CovarianceRows::with_matrix_row))]
    pub(crate) fn row(&mut self, bytes: &[u8], text: Range32) -> Result<(), OemCause>
        requires within { IsWithin bytes.now text }
        requires short { length bytes.now < 2 ^ 32 }
        ensures { Tells (λ _. covariances_of self.new) result (spec.with_matrix_row (covariances_of self.old) (text_at bytes.now text)) }
    {
        let draft = self.draft.ok_or(OemCause::MatrixForm)?;
        self.draft = Some(draft.with_row(bytes, text)?);
        Ok(())
    }

    /// The covariances in the frame RTN, where the last one is whole, without room for others.
    pub(crate) fn close(self) -> Result<Vec<Matrix>, Refused<OemCause>>
        ensures { Follows (λ v. map plain_matrix v.items) result (spec.closed (covariances_of self)) }
    {
        let mut covariances = self;
        covariances.finish()?;
        let Covariances {
            mut whole,
            draft: _,
        } = covariances;
        whole.shrink_to_fit();
        Ok(whole)
    }

    /// Puts the matrix that was read to the others, where its frame is RTN.
    #[tactic(auto, unfolding(crate::specs::CovarianceRows::closed))]
    fn finish(&mut self) -> Result<(), Refused<OemCause>>
        ensures { Follows (λ _. map plain_matrix self.new.whole.items) result (spec.closed (covariances_of self.old)) }
    {
        let Some(draft) = self.draft else {
            return Ok(());
        };
        if draft.rows != 6 {
            return Err(Refused::Because(OemCause::MatrixForm));
        }
        if draft.rtn {
            self.whole.push(draft.matrix())?;
        }
        Ok(())
    }

    /// Begins the next matrix.
    fn begin(&mut self, value: &[u8]) -> Result<(), Refused<OemCause>>
        ensures { Follows (λ _. covariances_of self.new) result (spec.with_epoch (covariances_of self.old) value.now) }
    {
        self.finish()?;
        let at = parse_epoch(value)?;
        self.draft = Some(CovarianceDraft::new(at));
        Ok(())
    }

    /// Notes the frame of the matrix.
    fn frame(&mut self, value: &[u8]) -> Result<(), OemCause>
        ensures { Tells (λ _. covariances_of self.new) result (with_draft (covariances_of self.old) (spec.with_frame (covariances_of self.old).draft value.now)) }
    {
        let draft = self.draft.ok_or(OemCause::MatrixForm)?;
        self.draft = Some(draft.with_frame(value)?);
        Ok(())
    }
}
