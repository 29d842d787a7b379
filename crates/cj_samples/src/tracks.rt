//! Tracks of given segments.
ghost use Rattle.std.specs.Prelude.{◌≡◌, ◌≤◌, [], ◌∷◌, length, map, IfOk};
ghost use Rattle.cj_track.specs.Segments.{AreSegments, node_count};
ghost use Rattle.cj_track.specs.Tracks.{plain_segment, plain_track};
ghost use Rattle.cj_samples.specs.Samples.{sat_a};

use cj_base::Text;
use cj_track::{Frame, Segment, Segments, Track};
use std::alloc::{AllocError, Global};

/// The track of an object `SAT A` in a file `a.oem` with these segments.
#[tactic(auto, unfolding(cj_track::specs::Labels::is_file_name, cj_track::specs::Labels::is_label))]
pub fn track(alloc: Global, segments: Vec<Segment>) -> Result<Track, AllocError>
    requires { AreSegments segments.items }
    ensures frame { IfOk result (λ track. track.frame ≡ Frame.Eme2000) }
    ensures segments { IfOk result (λ track. track.segments ≡ segments.items) }
    ensures value { IfOk result (λ track. plain_track track ≡ sat_a (map plain_segment segments.items)) }
{
    Ok(Track {
        file: Text::copy_of(alloc, b"a.oem")?,
        name: Text::copy_of(alloc, b"SAT A")?,
        id: Text::copy_of(alloc, b"2025-001A")?,
        frame: Frame::Eme2000,
        segments: Segments::new(alloc, segments)?,
    })
}

/// A track of one segment of two nodes.
pub fn track_of(alloc: Global, segment: Segment) -> Result<Track, AllocError>
    requires { length segment.nodes ≡ 2 }
    ensures frame { IfOk result (λ track. track.frame ≡ Frame.Eme2000) }
    ensures nodes { IfOk result (λ track. node_count track.segments ≡ 2) }
    ensures value { IfOk result (λ track. plain_track track ≡ sat_a (plain_segment segment ∷ [])) }
{
    track(alloc, vec![in alloc; segment]?)
}

/// A track of two segments of two nodes each, the second useable from the end of the first on, or later.
pub fn track_of_two(alloc: Global, one: Segment, other: Segment) -> Result<Track, AllocError>
    requires order { one.last.micros ≤ other.first.micros }
    requires one { length one.nodes ≡ 2 }
    requires other { length other.nodes ≡ 2 }
    ensures frame { IfOk result (λ track. track.frame ≡ Frame.Eme2000) }
    ensures nodes { IfOk result (λ track. node_count track.segments ≡ 4) }
    ensures value { IfOk result (λ track. plain_track track ≡ sat_a (plain_segment one ∷ plain_segment other ∷ [])) }
{
    track(alloc, vec![in alloc; one, other]?)
}
