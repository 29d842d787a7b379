//! The outside of the screener as traits: a folder that is read, a shelf that outputs are put on, whole or while they are made, and a gate
//! that each turn of a worker passes. A folder and a shelf may tell what they contain, and count their own faults. Beside the traits stand
//! folders, shelves and sources in memory, which tell all, and the reading of a whole file.
#![tactic(auto)]

mod bytes;
mod calls;
mod calm_folder;
mod calm_shelf;
mod difference;
mod file;
mod folder;
mod gate;
mod gathering;
mod mem_folder;
mod mem_shelf;
mod mem_source;
mod name;
mod part_source;
mod parts;
mod shelf;
mod stage;
mod stream_shelf;
mod warning;
mod whole;

pub use bytes::Bytes;
pub use calm_folder::CalmFolder;
pub use calm_shelf::CalmShelf;
pub use difference::{Difference, Differing};
pub use file::FileBytes;
pub use folder::{Failed, Folder, FolderError};
pub use gate::{Gate, OpenGate};
pub use gathering::all_parts;
pub use mem_folder::MemFolder;
pub use mem_shelf::MemShelf;
pub use mem_source::MemSource;
pub use name::Name;
pub use part_source::PartSource;
pub use parts::join_parts;
pub use shelf::{PutError, Shelf};
pub use stage::Stage;
pub use stream_shelf::StreamShelf;
pub use warning::Warning;
pub use whole::{ReadError, read_whole};
