//! Ticks of the first hour of 2025.
ghost use Rattle.std.specs.Prelude.{◌≡◌, ◌*◌};
ghost use Rattle.cj_samples.specs.Moments.{tick_of};

use cj_base::{Tick, Window};

/// The tick 2025-01-01T00:00:00.
const START: u64 = 1_735_689_600_000_000;

/// So many microseconds after the start of 2025.
pub fn tick(micros: u32) -> Tick
    ensures { result.micros ≡ tick_of micros }
{
    Tick {
        micros: START + u64::from(micros),
    }
}

/// So many seconds after the start of 2025.
pub fn second(count: u8) -> Tick
    ensures { result.micros ≡ tick_of (count * 1000000) }
{
    tick(u32::from(count) * 1_000_000)
}

/// From one microsecond after the start of 2025 to another, both included.
pub fn window(first: u32, last: u32) -> Window
    ensures first { result.first.micros ≡ tick_of first }
    ensures last { result.last.micros ≡ tick_of last }
{
    Window {
        first: tick(first),
        last: tick(last),
    }
}

/// From one second to another.
pub fn seconds(first: u8, last: u8) -> Window
    ensures first { result.first.micros ≡ tick_of (first * 1000000) }
    ensures last { result.last.micros ≡ tick_of (last * 1000000) }
{
    Window {
        first: second(first),
        last: second(last),
    }
}
