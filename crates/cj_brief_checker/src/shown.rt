use cj_case::{AxisBox, BySlot};
use cj_checker::Failure;

/// What the lines of shells show of the objects.
#[derive(Drop)]
pub(crate) enum Shown {
    /// The box of each object in each slot.
    Boxes(BySlot<Option<AxisBox>>),
    /// The first line that is not the shell of the object in its place.
    Fails(Failure),
}
