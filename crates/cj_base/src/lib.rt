//! Values that texts give: names as lists of bytes, decimal numbers; ticks and windows, and the calendar by which they are counted; and how
//! much a run may take.
#![tactic(auto)]

mod decimals;
mod limits;
mod text;
mod tick;

pub use decimals::Decimal;
pub use limits::{
    Limits, MOST_LEAVES, MOST_MADE_OBJECTS, MOST_NODES, MOST_OBJECT_SLOTS, MOST_OBJECTS,
};
pub use text::Text;
pub use tick::{DAY, HOUR, MINUTE, SECOND, Tick, Window};
