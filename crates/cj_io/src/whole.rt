ghost use Rattle.std.specs.Prelude.{◌≡◌, ◌<◌, ◌≤◌, ◌+◌, List, length, take, IfOk, OnOk, IsErrOf};
ghost use Rattle.cj_io.specs.Faults.{Rose};
ghost use Rattle.cj_io.specs.Files.{bytes_of};
ghost use Rattle.cj_io.specs.declared.file.FileBytes.{FileBytes};
ghost use Rattle.cj_io.specs.declared.whole.ReadError.TheVariants.{Memory, Failed as FolderFailed};

use crate::{Failed, Folder};
use std::alloc::{AllocError, Global};

/// Why a file was not read whole.
#[derive(Clone, Copy, Debug, PartialEq, Eq)]
pub enum ReadError {
    /// There was no memory.
    Memory,
    /// The folder failed.
    Failed,
    /// The file has more bytes than the limit.
    TooLarge,
}

impl From<AllocError> for ReadError {
    ghost from_gives = { λ _ e. e ≡ Memory };

    fn from(_: AllocError) -> Self {
        ReadError::Memory
    }
}

impl From<Failed> for ReadError {
    ghost from_gives = { λ _ e. e ≡ FolderFailed };

    fn from(_: Failed) -> Self {
        ReadError::Failed
    }
}

/// The room, in bytes, that is made first, and the least that is added.
const LEAST_ROOM: u64 = 64 * 1024;

/// Reads a file to its end, into room that grows by a quarter as often as it is full and is cut to the file at the end. A refusal hands
/// out nothing.
pub fn read_whole<F: Folder>(
    alloc: Global,
    folder: &mut F,
    file: u32,
    limit: u64,
) -> Result<Vec<u8>, ReadError>
    requires { file < F.count folder.old }

    ensures failed { IsErrOf result ReadError.Failed → Rose (F.faults folder.old) (F.faults folder.new) }
    ensures too_large { (files : List FileBytes) → F.files folder.old ≡ Some files → IsErrOf result ReadError.TooLarge → limit < length (bytes_of files file) }

    ensures within { IfOk result (λ bytes. length bytes.items ≤ limit) }
    ensures told { (files : List FileBytes) → F.files folder.old ≡ Some files → IfOk result (λ bytes. bytes.items ≡ bytes_of files file) }

    ensures count { F.count folder.new ≡ F.count folder.old }
    ensures files { F.files folder.new ≡ F.files folder.old }
    ensures later { F.faults folder.old ≤ F.faults folder.new }
{
    let mut bytes = Vec::new(alloc);
    let mut read = 0usize;
    loop {
        make_room(&mut bytes, read, limit)?;
        let count = folder.read(file, read as u64, &mut bytes[read..])?;
        if count == 0 {
            bytes.truncate(read);
            bytes.shrink_to_fit();
            return Ok(bytes);
        }
        if limit - (read as u64) < u64::from(count) {
            return Err(ReadError::TooLarge);
        }
        read += count as usize;
    }
}

/// Adds a quarter to the room where it is full, up to one byte more than the limit.
fn make_room(bytes: &mut Vec<u8>, read: usize, limit: u64) -> Result<(), AllocError>
    requires room { read ≤ length bytes.old.items }
    requires within { read ≤ limit }
    ensures room { OnOk result (read < length bytes.new.items) }
    ensures front { OnOk result (take read bytes.new.items ≡ take read bytes.old.items) }
{
    let room = bytes.len();
    if read < room {
        return Ok(());
    }
    let more = (room as u64 / 4).max(LEAST_ROOM);
    let wanted = (room as u64 + more).min(limit.saturating_add(1));
    bytes.resize(wanted as usize, 0)
}
