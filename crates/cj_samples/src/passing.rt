//! Tracks that pass at 7.5 km/s, at right angles to each other and one kilometre apart.
ghost use Rattle.std.specs.Prelude.{◌≡◌, IfOk};
ghost use Rattle.cj_track.specs.Segments.{node_count};
ghost use Rattle.cj_track.specs.Tracks.{plain_track};
ghost use Rattle.cj_samples.specs.Scenes.{path_along_y, path_along_z};

use crate::segments::moving;
use crate::tracks::track_of;
use cj_track::{Frame, Track, Vec3};
use std::alloc::{AllocError, Global};

/// From (7000, -225, 0) km to (7000, 225, 0) km in a minute.
pub fn along_y(alloc: Global) -> Result<Track, AllocError>
    ensures frame { IfOk result (λ track. track.frame ≡ Frame.Eme2000) }
    ensures nodes { IfOk result (λ track. node_count track.segments ≡ 2) }
    ensures value { IfOk result (λ track. plain_track track ≡ path_along_y) }
{
    let v = Vec3 {
        x: 0,
        y: 7_500_000_000_000,
        z: 0,
    };
    let from = Vec3 {
        x: 7_000_000_000_000_000,
        y: -225_000_000_000_000,
        z: 0,
    };
    let to = Vec3 {
        x: 7_000_000_000_000_000,
        y: 225_000_000_000_000,
        z: 0,
    };
    track_of(alloc, moving(alloc, 0, 60, from, to, v)?)
}

/// From (7001, 0, -225) km to (7001, 0, 225) km in a minute.
pub fn along_z(alloc: Global) -> Result<Track, AllocError>
    ensures frame { IfOk result (λ track. track.frame ≡ Frame.Eme2000) }
    ensures nodes { IfOk result (λ track. node_count track.segments ≡ 2) }
    ensures value { IfOk result (λ track. plain_track track ≡ path_along_z) }
{
    let v = Vec3 {
        x: 0,
        y: 0,
        z: 7_500_000_000_000,
    };
    let from = Vec3 {
        x: 7_001_000_000_000_000,
        y: 0,
        z: -225_000_000_000_000,
    };
    let to = Vec3 {
        x: 7_001_000_000_000_000,
        y: 0,
        z: 225_000_000_000_000,
    };
    track_of(alloc, moving(alloc, 0, 60, from, to, v)?)
}
