//! What marks lead to, stage by stage.
ghost use Rattle.cj_kvn.specs.Lines.{Mark};
ghost use Rattle.cj_kvn.specs.Faults.{Follows};
ghost use Rattle.cj_oem.specs.Drafts.{covariances_of};
ghost use Rattle.cj_oem.specs.MetadataDrafts.{metadata_draft_of};
ghost use Rattle.cj_oem.specs.Readers.{body_of, head_of, open_segment_of, stage_of};
ghost use Rattle.cj_oem.specs.Stages as spec;

use crate::body::{Body, OpenSegment};
use crate::complete_nodes::CompleteNodes;
use crate::covariances::Covariances;
use crate::head::Head;
use crate::metadata_draft::MetadataDraft;
use crate::stage::Stage;
use cj_formats::OemCause;
use cj_kvn::{MarkKind, Refused};
use std::alloc::Global;

/// What a mark behind the header leads to.
pub(crate) fn after_header(
    alloc: Global,
    head: Head,
    mark: MarkKind,
) -> Result<Stage, Refused<OemCause>>
    ensures { Follows stage_of result (spec.in_header (head_of head) (Mark mark)) }
{
    match mark {
        MarkKind::MetaStart if head.date && head.originator => {
            Ok(Stage::Meta(Body::new(alloc), MetadataDraft::new()))
        }
        MarkKind::MetaStart => Err(Refused::Because(OemCause::Missing)),
        _ => Err(Refused::Because(OemCause::Order)),
    }
}

/// What a mark among metadata leads to.
pub(crate) fn after_metadata(
    alloc: Global,
    body: Body,
    draft: MetadataDraft,
    mark: MarkKind,
    as_hermite3: bool,
) -> Result<Stage, Refused<OemCause>>
    ensures { Follows stage_of result (spec.in_meta as_hermite3 (body_of body) (metadata_draft_of draft) (Mark mark)) }
{
    match mark {
        MarkKind::MetaStop => match draft.metadata(as_hermite3) {
            Ok(metadata) => Ok(Stage::Data(body, OpenSegment::new(alloc, metadata))),
            Err(cause) => {
                drop(body);
                Err(Refused::Because(cause))
            }
        },
        _ => {
            drop(body);
            drop(draft);
            Err(Refused::Because(OemCause::Order))
        }
    }
}

/// What a mark behind nodes leads to.
pub(crate) fn after_nodes(
    alloc: Global,
    body: Body,
    open_segment: OpenSegment,
    mark: MarkKind,
) -> Result<Stage, Refused<OemCause>>
    ensures { Follows stage_of result (spec.in_data (body_of body) (open_segment_of open_segment) (Mark mark)) }
{
    match mark {
        MarkKind::MetaStart => {
            let body = CompleteNodes::new(body, open_segment)?.with(Vec::new(alloc))?;
            Ok(Stage::Meta(body, MetadataDraft::new()))
        }
        MarkKind::CovarianceStart => {
            let closed = CompleteNodes::new(body, open_segment)?;
            Ok(Stage::Cov(closed, Covariances::new(alloc)))
        }
        _ => {
            drop(body);
            drop(open_segment);
            Err(Refused::Because(OemCause::Order))
        }
    }
}

/// What a mark among covariances leads to.
pub(crate) fn after_covariances(
    closed: CompleteNodes,
    covariances: Covariances,
    mark: MarkKind,
) -> Result<Stage, Refused<OemCause>>
    ensures { Follows stage_of result (spec.in_cov (body_of closed.body) (open_segment_of closed.open_segment) (covariances_of covariances) (Mark mark)) }
{
    match mark {
        MarkKind::CovarianceStop => match covariances.close() {
            Ok(matrices) => Ok(Stage::After(closed.with(matrices)?)),
            Err(refused) => {
                drop(closed);
                Err(refused)
            }
        },
        _ => {
            drop(closed);
            drop(covariances);
            Err(Refused::Because(OemCause::Order))
        }
    }
}

/// What a mark behind a segment with covariances leads to.
pub(crate) fn after_segment(body: Body, mark: MarkKind) -> Result<Stage, Refused<OemCause>>
    ensures { Follows stage_of result (spec.in_after (body_of body) (Mark mark)) }
{
    match mark {
        MarkKind::MetaStart => Ok(Stage::Meta(body, MetadataDraft::new())),
        _ => {
            drop(body);
            Err(Refused::Because(OemCause::Order))
        }
    }
}
