ghost use Rattle.cj_track.specs.Limits.{MAX_COORDINATE, MAX_RATE, IsWithin};

use crate::vec3::Vec3;
use cj_base::Tick;

/// Where an object is at a tick, and how fast it goes.
#[derive(Clone, Copy, Debug, PartialEq, Eq)]
pub struct Node {
    pub at: Tick,
    pub p: Vec3,
    pub v: Vec3,
    pub ghost place: { IsWithin MAX_COORDINATE p.x × IsWithin MAX_COORDINATE p.y × IsWithin MAX_COORDINATE p.z },
    pub ghost rate: { IsWithin MAX_RATE v.x × IsWithin MAX_RATE v.y × IsWithin MAX_RATE v.z },
}
