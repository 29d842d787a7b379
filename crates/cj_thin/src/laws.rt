//! What is so of tracks and of the same with fewer nodes, whether or not these are made.
ghost use Rattle.std.specs.Prelude.{◌^◌, ◌≤◌, All, map};
ghost use Rattle.cj_track.specs.Nodes.{AreNodes};
ghost use Rattle.cj_track.specs.Tracks.{plain_track};
ghost use Rattle.cj_thin.specs.Thinned.{thinned};
ghost use Rattle.cj_thin.specs.Within.{IsThinnerWithin};

use cj_track::Track;

/// Each of these tracks and what it is with fewer nodes within `e` nm have a state at the same ticks, and are within `e` nm there.
pub fn nearness(tracks: &[Track], e: u64)
    requires { 10 ^ 9 ≤ e }
    ensures law { All (λ track. IsThinnerWithin e track (thinned e track)) (map plain_track tracks.now) }
{
    for track in tracks {
        nodes_of(track);
    }
}

/// The nodes of each segment of a track follow their rule.
fn nodes_of(track: &Track)
    ensures { All (λ segment. AreNodes segment.nodes) track.now.segments }
{
    let segments = track.segments.as_slice();
    for segment in segments {
        let _nodes = segment.nodes.as_slice();
    }
}
