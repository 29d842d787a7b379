/// What the gap of two hulls says of the distance over their ticks.
#[derive(Clone, Copy, Debug, PartialEq, Eq)]
pub enum Verdict {
    /// Beyond the threshold at each tick.
    Far,
    /// Within the threshold at each tick.
    Near,
    /// Within one millimetre of the threshold at each tick.
    Undecided,
    /// None of these: the ticks are to be halved.
    Split,
}
