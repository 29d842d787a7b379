//! Orbit ephemeris messages: how a file of them is read as a track, and a track's canonical text.
#![tactic(auto)]

mod body;
mod complete_nodes;
mod covariances;
mod draft;
mod fault;
mod figures;
mod head;
mod key;
mod marks;
mod metadata_draft;
mod node_checks;
mod node_list;
mod node_row;
mod object;
mod printing;
mod reader;
mod row_fields;
mod segment_list;
mod segment_metadata;
mod stage;
mod values;
mod word;

pub use cj_formats::OemCause;
pub use cj_track::{Frame, Matrices, Matrix, Node, Nodes, Segment, Segments, Track, Vec3};
pub use fault::OemFault;
pub use printing::oem_text;
pub use reader::read_oem;
