//! What is written into a message, lent by the problem.
use crate::stamp::Stamp;
use cj_base::{Tick, Window};
use cj_rtn::Vector;
use cj_track::{Matrix, Track};

/// What a message says of one object.
#[derive(Clone, Copy)]
pub(crate) struct SideFields<'a> {
    pub(crate) track: &'a Track,
    pub(crate) place: Vector,
    pub(crate) rate: Vector,
    /// In km and km/s.
    pub(crate) matrix: &'a Matrix,
}

/// What a message says.
#[derive(Clone, Copy)]
pub(crate) struct MessageFields<'a> {
    pub(crate) stamp: Stamp<'a>,
    pub(crate) tca: Tick,
    /// In nm.
    pub(crate) miss: u64,
    pub(crate) window: Window,
    pub(crate) first: SideFields<'a>,
    pub(crate) second: SideFields<'a>,
}
