//! The states of pieces at a tick, in whole nm and nm/s, and the state of one relative to another along the radial, transverse and normal
//! axes of the other.
#![tactic(auto)]

mod axes;
mod laws;
mod measuring;
mod relating;
mod relative;
mod state;
mod states;
mod vector;
mod vectors;

pub use laws::exactness;
pub use relating::{relative_state, rtn};
pub use relative::{AxisValues, Rtn};
pub use states::{place_at, rate_at};
pub use vector::Vector;
