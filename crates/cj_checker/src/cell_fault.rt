use cj_formats::CheckCause;

/// A cell that fails, by its place in the list, and why.
#[derive(Clone, Copy)]
pub struct CellFault {
    pub at: usize,
    pub cause: CheckCause,
}
