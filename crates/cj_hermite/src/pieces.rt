ghost use Rattle.std.specs.Prelude.{◌+◌, ◌<◌, ◌≤◌};
ghost use Rattle.cj_track.specs.Limits.{MAX_COORDINATE, MAX_RATE, IsWithin};
ghost use Rattle.cj_hermite.specs.Limits.{MAX_SPAN};

use cj_base::Tick;
use cj_track::Vec3;

/// Two neighbouring nodes of a segment: places in nm, rates in nm/s, at most an hour apart.
#[derive(Clone, Copy, Debug, PartialEq, Eq)]
pub struct Piece {
    pub t0: Tick,
    pub t1: Tick,
    pub p0: Vec3,
    pub v0: Vec3,
    pub p1: Vec3,
    pub v1: Vec3,
    pub ghost ordered: { t0.micros < t1.micros },
    pub ghost short: { t1.micros ≤ t0.micros + MAX_SPAN },
    pub ghost first_place: { IsWithin MAX_COORDINATE p0.x × IsWithin MAX_COORDINATE p0.y × IsWithin MAX_COORDINATE p0.z },
    pub ghost first_rate: { IsWithin MAX_RATE v0.x × IsWithin MAX_RATE v0.y × IsWithin MAX_RATE v0.z },
    pub ghost last_place: { IsWithin MAX_COORDINATE p1.x × IsWithin MAX_COORDINATE p1.y × IsWithin MAX_COORDINATE p1.z },
    pub ghost last_rate: { IsWithin MAX_RATE v1.x × IsWithin MAX_RATE v1.y × IsWithin MAX_RATE v1.z },
}
