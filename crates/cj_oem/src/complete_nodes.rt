ghost use Rattle.std.specs.Prelude.{◌≡◌, ◌≤◌, length, map};
ghost use Rattle.cj_oem.specs.Stages as spec;
ghost use Rattle.cj_track.specs.Tracks.{plain_segment};
ghost use Rattle.cj_track.specs.Useable.{LiesWithin};

use crate::body::{Body, OpenSegment};
use crate::node_checks::check_nodes;
use crate::segment_metadata::Metadata;
use cj_formats::OemCause;
use cj_track::{Matrices, Matrix, Segment};
use std::alloc::AllocError;

/// The segments of a file so far and one whose nodes are closed: it may become the next of them.
#[derive(Drop)]
pub(crate) struct CompleteNodes {
    pub(crate) body: Body,
    pub(crate) open_segment: OpenSegment,
    pub(crate) ghost enough: { 2 ≤ length open_segment.nodes },
    pub(crate) ghost some: { open_segment.metadata.first.micros ≤ open_segment.metadata.last.micros },
    pub(crate) ghost within: { LiesWithin open_segment.metadata.first.micros open_segment.metadata.last.micros open_segment.nodes },
    pub(crate) ghost later: { spec.end_of (map plain_segment body.segments) ≤ open_segment.metadata.first.micros },
}

impl CompleteNodes {
    ghost use Rattle.std.specs.Prelude.{IfOk};
    ghost use Rattle.cj_kvn.specs.Faults.{Tells};
    ghost use Rattle.cj_oem.specs.Readers.{body_of, open_segment_of};
    ghost use Rattle.cj_track.specs.Tracks.{plain_matrix};

    /// Closes the nodes of a segment.
    pub(crate) fn new(body: Body, open_segment: OpenSegment) -> Result<Self, OemCause>
        ensures exact { Tells (λ _. tt) result (spec.close_nodes (body_of body) (open_segment_of open_segment)) }
        ensures body { IfOk result (λ closed. closed.body ≡ body) }
        ensures open_segment { IfOk result (λ closed. closed.open_segment ≡ open_segment) }
    {
        if let Err(cause) = check_nodes(&body, &open_segment) {
            drop(body);
            drop(open_segment);
            return Err(cause);
        }
        Ok(CompleteNodes { body, open_segment })
    }

    /// The segments with this one, which has these covariances.
    pub(crate) fn with(self, covariances: Vec<Matrix>) -> Result<Body, AllocError>
        ensures { IfOk result (λ body. body_of body ≡ spec.with_segment (body_of self.body) (open_segment_of self.open_segment) (map plain_matrix covariances.items)) }
    {
        let CompleteNodes { body, open_segment } = self;
        drop(body.object);
        let mut segments = body.segments;
        let Metadata {
            object,
            first,
            last,
        } = open_segment.metadata;
        let segment = Segment {
            first,
            last,
            nodes: open_segment.nodes.into_nodes(),
            matrices: Matrices::new(covariances),
        };
        match segments.push(segment) {
            Ok(()) => Ok(Body {
                object: Some(object),
                segments,
            }),
            Err(error) => {
                drop(segments);
                drop(object);
                Err(error)
            }
        }
    }
}
