use crate::axis_box::AxisBox;
use crate::by_slot::BySlot;
use crate::shells::Shell;

/// What is measured of objects before their pairs are compared.
#[derive(Debug, Drop)]
pub struct Measured {
    /// The shell of each object in the window.
    pub shells: Vec<Option<Shell>>,
    /// The box of each object in each slot.
    pub boxes: BySlot<Option<AxisBox>>,
}
