ghost use Rattle.std.specs.Prelude.{◌≤◌, length};
ghost use Rattle.cj_track.specs.Useable.{LiesWithin};

use crate::matrices::Matrices;
use crate::nodes::Nodes;
use cj_base::Tick;

/// A segment of a track: its useable span, its nodes, its covariances. Interpolation stays within it.
#[derive(Debug, Drop, PartialEq, Eq)]
pub struct Segment {
    pub first: Tick,
    pub last: Tick,
    pub nodes: Nodes,
    pub matrices: Matrices,
    pub ghost some: { first.micros ≤ last.micros },
    pub ghost enough: { 2 ≤ length nodes },
    pub ghost within: { LiesWithin first.micros last.micros nodes },
}
