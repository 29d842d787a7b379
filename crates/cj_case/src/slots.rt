//! The slots of a window.
ghost use Rattle.std.specs.Prelude.{◌≡◌, ◌<◌, ◌≤◌, IfNone, IfSome};
ghost use Rattle.cj_case.specs.Slots.{slot_first, slot_last, slot_count};

use cj_base::{Tick, Window};

/// The ticks of a slot: a minute.
pub const SLOT: u64 = 60_000_000;

/// The ticks of a slot, none where the window ends before it.
pub fn slot_window(window: Window, slot: u32) -> Option<Window>
    ensures none { IfNone result (slot_last window.first.micros window.last.micros slot < slot_first window.first.micros slot) }
    ensures first { IfSome result (λ ticks. ticks.first.micros ≡ slot_first window.first.micros slot) }
    ensures last { IfSome result (λ ticks. ticks.last.micros ≡ slot_last window.first.micros window.last.micros slot) }
    ensures some { IfSome result (λ ticks. ticks.first.micros ≤ ticks.last.micros) }
{
    let first = window.first.micros + SLOT * u64::from(slot);
    if window.last.micros < first {
        return None;
    }
    let last = (first + SLOT - 1).min(window.last.micros);
    Some(Window {
        first: Tick { micros: first },
        last: Tick { micros: last },
    })
}

/// How many slots hold the ticks of a window: none where its first tick comes after its last.
pub fn slot_count(window: Window) -> u32
    ensures { result ≡ slot_count window.first.micros window.last.micros }
{
    window.ticks().div_ceil(SLOT) as u32
}
