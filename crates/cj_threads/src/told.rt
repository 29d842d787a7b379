/// Somebody who is told how far work has come. No clause speaks of it.
pub trait Told {
    /// What belongs to a number is done.
    fn done(&self, number: usize);
}

/// Tells nobody.
pub struct Nobody;

impl Told for Nobody {
    fn done(&self, _number: usize) {}
}
