use cj_case::AxisBox;

/// The box of an object in each slot, where the line in its place has its shell.
#[derive(Drop)]
pub struct Row {
    pub boxes: Vec<Option<AxisBox>>,
}
