use cj_case::Cell;
use std::collections::LinkedList;

/// What a pass of a deque did. Contracts see it, and no value of it is ever made.
pub struct Account {
    /// Who has all parts of a deque knows what is left in it.
    pub parts: u64,
    /// How many parts the deque has, if this is its owner's. A pass that another hand has does not know it.
    pub all: u64,
    /// The roots that were pushed before the first turn.
    pub opening: LinkedList<Cell>,
    pub pushed: LinkedList<Cell>,
    pub taken: LinkedList<Cell>,
}
