/// What a certificate states, and what the case has for which it is checked.
#[derive(Clone, Copy, Debug, PartialEq, Eq)]
pub struct Difference {
    pub of: Differing,
    pub stated: u64,
    pub asked: u64,
}

/// Of what a certificate states otherwise than a case has it.
#[derive(Clone, Copy, Debug, PartialEq, Eq)]
pub enum Differing {
    /// The first tick of the window.
    Start,
    /// The last tick of the window.
    Stop,
    /// The threshold in nm.
    Threshold,
    /// How many objects there are.
    Objects,
    /// The size in nm of the object with this number, counted from 1.
    Size { object: u64 },
}
