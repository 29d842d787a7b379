//! Tracks: the nodes, segments and covariances of one object, and the rules that they keep.
#![tactic(auto)]

mod frame;
mod matrices;
mod matrix;
mod node;
mod nodes;
mod segment;
mod segments;
mod track;
mod vec3;

pub use frame::{Frame, frame_text};
pub use matrices::Matrices;
pub use matrix::Matrix;
pub use node::Node;
pub use nodes::Nodes;
pub use segment::Segment;
pub use segments::Segments;
pub use track::Track;
pub use vec3::Vec3;
