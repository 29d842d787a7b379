use cj_case::{AxisBox, Shell};

/// What is measured of an object.
#[derive(Drop)]
pub struct MeasuredObject {
    /// Its shell in the window.
    pub shell: Option<Shell>,
    /// Its box in each slot.
    pub boxes: Vec<Option<AxisBox>>,
}
