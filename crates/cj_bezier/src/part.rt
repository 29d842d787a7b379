use crate::hulls::Hull;
use cj_base::Tick;

/// The hull of a piece of a track over a run of ticks at which the track is at that piece.
#[derive(Clone, Copy, Debug, PartialEq, Eq)]
pub struct Part {
    pub hull: Hull,
    /// The last tick of the run.
    pub last: Tick,
}
