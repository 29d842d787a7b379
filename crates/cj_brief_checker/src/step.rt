use cj_formats::CheckCause;

/// What a cell is for a root that is left: it tells of its next ticks, or of a root behind it, or fails.
#[derive(Clone, Copy)]
pub(crate) enum Step {
    Takes,
    Leaves,
    Fails(CheckCause),
}
