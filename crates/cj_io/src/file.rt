use crate::{Bytes, Name};

/// A file or an output: its name and what it contains.
#[derive(Debug, PartialEq, Eq, Drop)]
pub struct FileBytes {
    pub name: Name,
    pub bytes: Bytes,
}
