//! The segments of a file so far.
ghost use Rattle.std.specs.Prelude.{◌≡◌, []};
ghost use Rattle.cj_oem.specs.Readers.{body_of, open_segment_of};
ghost use Rattle.cj_oem.specs.MetadataDrafts.{metadata_of};
ghost use Rattle.cj_oem.specs.Stages as spec;

use crate::node_list::NodeList;
use crate::object::Object;
use crate::segment_list::SegmentList;
use crate::segment_metadata::Metadata;
use std::alloc::Global;

/// The object, where a segment has named it, and the segments that are whole.
#[derive(Drop)]
pub(crate) struct Body {
    pub(crate) object: Option<Object>,
    pub(crate) segments: SegmentList,
}

impl Body {
    pub(crate) fn new(alloc: Global) -> Self
        ensures { body_of result ≡ spec.NO_BODY }
    {
        Body {
            object: None,
            segments: SegmentList::new(alloc),
        }
    }
}

/// A segment so far: what its metadata says, and its nodes.
#[derive(Drop)]
pub(crate) struct OpenSegment {
    pub(crate) metadata: Metadata,
    pub(crate) nodes: NodeList,
}

impl OpenSegment {
    pub(crate) fn new(alloc: Global, metadata: Metadata) -> Self
        ensures { open_segment_of result ≡ record { metadata = metadata_of metadata; nodes = [] } }
    {
        OpenSegment {
            metadata,
            nodes: NodeList::new(alloc),
        }
    }
}
