/// How many leaves there may be, and how many of them may be told.
#[derive(Clone, Copy, Debug, PartialEq, Eq)]
pub struct LeafLimits {
    pub leaves: u64,
    pub told: u64,
}
