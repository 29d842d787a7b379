use crate::cell::Cell;
use crate::kind::Kind;

/// A cell that is closed, with what it was found to be.
#[derive(Clone, Copy, Debug, PartialEq, Eq)]
pub struct Leaf {
    pub cell: Cell,
    pub kind: Kind,
}
