//! Pieces made ready for their levels.
ghost use Rattle.std.specs.Prelude.{◌<◌, ◌≤◌, pos, ◌+ℤ◌, ◌*ℤ◌};
ghost use Rattle.cj_interval.specs.Sizes.{IsWithin};
ghost use Rattle.cj_track.specs.Limits.{MAX_COORDINATE, MAX_RATE};
ghost use Rattle.cj_hermite.specs.Limits.{MAX_SPAN};

use cj_base::Tick;
use cj_interval::Divisor;

/// A rate, by what it covers in a third of a tick: whole nanometres, and parts of 3,000,000 of one.
#[derive(Clone, Copy, Debug, PartialEq, Eq)]
pub struct Speed {
    pub whole: i64,
    pub rest: u64,
    pub ghost few: { IsWithin 6666667 whole },
    pub ghost less: { rest < 3000000 },
    pub ghost within: { IsWithin MAX_RATE (pos 3000000 *ℤ whole +ℤ pos rest) },
}

/// An axis of a piece: the places of its nodes in nm, the rate at the first one, and the rate back from the last one.
#[derive(Clone, Copy, Debug, PartialEq, Eq)]
pub struct ReadyAxis {
    pub from: i64,
    pub to: i64,
    pub out: Speed,
    pub back: Speed,
    pub ghost from_within: { IsWithin MAX_COORDINATE from },
    pub ghost to_within: { IsWithin MAX_COORDINATE to },
}

/// A piece made ready for levels at many of its ticks.
#[derive(Clone, Copy, Debug, PartialEq, Eq)]
pub struct Ready {
    pub start: Tick,
    pub divisor: Divisor,
    pub x: ReadyAxis,
    pub y: ReadyAxis,
    pub z: ReadyAxis,
    pub ghost short: { divisor.of ≤ MAX_SPAN },
}
