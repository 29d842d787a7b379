//! The sizes of objects: a radius for each designator; their primaries: some of the designators; and how files of them are read.
#![tactic(auto)]

mod draft;
mod fault;
mod primaries;
mod primaries_draft;
mod radii;
mod reader;
mod row;
mod rows;
mod size_line;

pub use cj_formats::{PrimariesCause, SizesCause};
pub use fault::SizesFault;
pub use primaries::{PrimariesFault, are_named, read_primaries};
pub use radii::{radii_of, radius_of};
pub use reader::read_sizes;
pub use size_line::SizeLine;
