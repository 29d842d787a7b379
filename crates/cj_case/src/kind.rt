/// What a leaf was found to be.
#[derive(Clone, Copy, Debug, PartialEq, Eq)]
pub enum Kind {
    /// Beyond the threshold at each tick.
    Far,
    /// Within the threshold at each tick.
    Near,
    /// Within one millimetre of the threshold at each tick.
    Undecided,
}
