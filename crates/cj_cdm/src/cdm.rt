use cj_base::{Decimal, Text, Tick};
use cj_rtn::Vector;
use cj_track::Frame;

/// A conjunction data message, as it is read.
#[derive(Debug, Drop, PartialEq, Eq)]
pub struct Cdm {
    pub created: Tick,
    pub originator: Text,
    pub number: u32,
    pub tca: Tick,
    /// The miss distance in nm.
    pub miss: u64,
    /// The first tick of the screened window, and the last.
    pub start: Tick,
    pub stop: Tick,
    pub first: Side,
    pub second: Side,
}

/// One object of a message.
#[derive(Debug, Drop, PartialEq, Eq)]
pub struct Side {
    pub id: Text,
    pub name: Text,
    /// The international designator, or `UNKNOWN`.
    pub designator: Text,
    /// The name of the file of its ephemeris.
    pub file: Text,
    pub frame: Frame,
    /// In nm.
    pub place: Vector,
    /// In nm/s.
    pub rate: Vector,
    /// The epoch of the covariance.
    pub epoch: Tick,
    /// The lower triangle of the covariance, row by row, in m and m/s.
    pub values: [Decimal; 21],
}
