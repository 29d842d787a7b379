ghost use Rattle.std.specs.Prelude.{◌≤◌, length};

use crate::reading::InputError;

/// A file that was read.
#[derive(Drop)]
pub struct FileRead<'a> {
    pub name: &'a [u8],
    pub bytes: Vec<u8>,
    pub ghost small: { length bytes.items ≤ 67_108_864 },
}

/// Files that were read, in order, and why the next was not, where that is why they are no more.
#[derive(Drop)]
pub struct Batch<'a> {
    pub files: Vec<FileRead<'a>>,
    pub stop: Option<InputError>,
}
