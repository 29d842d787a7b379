use crate::rule::{DequePass, Owner};
use crate::run::Run;

/// A deque with its number, and the passes to the other deques: of those with lower numbers, and of those with higher ones.
#[derive(Drop)]
pub(crate) struct Station<K: Run> {
    pub number: u32,
    pub own: Owner<K>,
    pub below: Vec<DequePass<K>>,
    pub above: Vec<DequePass<K>>,
}
