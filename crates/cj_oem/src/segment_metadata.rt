use crate::object::Object;
use cj_base::Tick;

/// What the metadata of a segment says: its object and its useable span.
#[derive(Drop)]
pub(crate) struct Metadata {
    pub(crate) object: Object,
    pub(crate) first: Tick,
    pub(crate) last: Tick,
}
