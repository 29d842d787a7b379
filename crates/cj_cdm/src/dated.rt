use cj_base::Tick;

/// A covariance by its epoch and its place among those of its segment. Of those of one epoch the one that stands later is the later.
#[derive(Clone, Copy, Debug, PartialEq, Eq, PartialOrd, Ord)]
pub(crate) struct Dated {
    pub(crate) at: Tick,
    pub(crate) place: usize,
}
