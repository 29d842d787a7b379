//! What the parts of a message say, lent by its text.
use crate::stamp::Stamp;
use cj_base::{Decimal, Tick};
use cj_rtn::Vector;
use cj_track::Frame;

/// What the lines up to the miss distance say.
#[derive(Clone, Copy)]
pub(crate) struct FrontSaid<'a> {
    pub(crate) stamp: Stamp<'a>,
    pub(crate) tca: Tick,
    pub(crate) miss: u64,
}

/// The screened window.
#[derive(Clone, Copy)]
pub(crate) struct PeriodSaid {
    pub(crate) start: Tick,
    pub(crate) stop: Tick,
}

/// What the lines before the objects say.
#[derive(Clone, Copy)]
pub(crate) struct HeadingSaid<'a> {
    pub(crate) stamp: Stamp<'a>,
    pub(crate) tca: Tick,
    pub(crate) miss: u64,
    pub(crate) start: Tick,
    pub(crate) stop: Tick,
}

/// What an object is.
#[derive(Clone, Copy)]
pub(crate) struct ObjectSaid<'a> {
    pub(crate) id: &'a [u8],
    pub(crate) name: &'a [u8],
    pub(crate) designator: &'a [u8],
    pub(crate) file: &'a [u8],
    pub(crate) frame: Frame,
}

/// What the lines of one object say.
#[derive(Clone, Copy)]
pub(crate) struct SideSaid<'a> {
    pub(crate) object: ObjectSaid<'a>,
    pub(crate) place: Vector,
    pub(crate) rate: Vector,
    pub(crate) epoch: Tick,
    pub(crate) values: [Decimal; 21],
}

/// What a message says.
#[derive(Clone, Copy)]
pub(crate) struct MessageSaid<'a> {
    pub(crate) heading: HeadingSaid<'a>,
    pub(crate) first: SideSaid<'a>,
    pub(crate) second: SideSaid<'a>,
}
