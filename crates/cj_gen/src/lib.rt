//! Catalogues of made-up objects on circular orbits, for runs without any data: a seed gives the same files at each call, each of them
//! is read, and none is refused.
#![tactic(auto)]

mod draws;
mod figures;
mod files;
mod orbit;
mod plane;
mod rounding;
mod text;
mod tilt;
mod tracks;

pub use files::catalogue;
pub use orbit::Orbit;
pub use plane::Point;
pub use tilt::{Tilt, Vector};
pub use tracks::catalogue_tracks;
