use cj_case::{Cell, Leaf};

/// What becomes of a cell.
#[derive(Clone, Copy, Debug, PartialEq, Eq)]
pub enum Look {
    /// Its ticks are of one kind.
    Closed(Leaf),
    /// It is halved.
    Halves(Cell, Cell),
}
