//! Reading a file, and why files were not read.
ghost use Rattle.std.specs.Prelude.{◌≡◌, ◌<◌, ◌≤◌, List, Some, Err, length, IfOk};
ghost use Rattle.cj_io.specs.Faults.{Rose};
ghost use Rattle.cj_io.specs.Files.{bytes_of};
ghost use Rattle.cj_io.specs.declared.file.FileBytes.{FileBytes};
ghost use Rattle.cj_inputs.specs.Readings as spec;
ghost use Rattle.cj_inputs.specs.Readings.{Reads};
ghost use Rattle.cj_inputs.specs.declared.reading.InputError.TheVariants.{Memory};

use cj_io::{Folder, Name, ReadError, read_whole};
use cj_status::{FileCause, LimitFault};
use std::alloc::{AllocError, AllocFailed, Global};

/// Why files were not read.
#[derive(Drop)]
pub enum InputError {
    /// There was no memory.
    Memory,
    /// The folder failed.
    Failed,
    /// A file was refused.
    Refused {
        file: Name,
        line: u32,
        cause: FileCause,
    },
    /// A limit was exceeded.
    Limit(LimitFault),
}

impl From<AllocError> for InputError {
    ghost from_gives = { λ _ e. e ≡ Memory };

    fn from(_: AllocError) -> Self {
        InputError::Memory
    }
}

impl<T: Drop> From<AllocFailed<T>> for InputError {
    ghost from_gives = { λ _ e. e ≡ Memory };

    fn from(_: AllocFailed<T>) -> Self {
        InputError::Memory
    }
}

/// The greatest number of bytes of a file.
const MAX_BYTES: u64 = 67_108_864;

/// The bytes of a file, which has this name.
pub fn read_file<F: Folder>(
    alloc: Global,
    folder: &mut F,
    number: u32,
    name: &[u8],
) -> Result<Vec<u8>, InputError>
    requires { number < F.count folder.old }

    ensures fault { result ≡ Err InputError.Failed → Rose (F.faults folder.old) (F.faults folder.new) }
    ensures told { (files : List FileBytes) → F.files folder.old ≡ Some files
        → Reads (Rose (F.faults folder.old) (F.faults folder.new)) (λ bytes. bytes.items) result (spec.within_bytes name.now (bytes_of files number)) }
    ensures small { IfOk result (λ bytes. length bytes.items ≤ 67_108_864) }

    ensures count { F.count folder.new ≡ F.count folder.old }
    ensures files { F.files folder.new ≡ F.files folder.old }
    ensures later { F.faults folder.old ≤ F.faults folder.new }
{
    read_within(alloc, folder, number, name, MAX_BYTES)
}

/// The bytes of a file, which has this name, where they are at most so many.
pub fn read_within<F: Folder>(
    alloc: Global,
    folder: &mut F,
    number: u32,
    name: &[u8],
    most: u64,
) -> Result<Vec<u8>, InputError>
    requires { number < F.count folder.old }

    ensures fault { result ≡ Err InputError.Failed → Rose (F.faults folder.old) (F.faults folder.new) }
    ensures told { (files : List FileBytes) → F.files folder.old ≡ Some files
        → Reads (Rose (F.faults folder.old) (F.faults folder.new)) (λ bytes. bytes.items) result (spec.within most name.now (bytes_of files number)) }
    ensures small { IfOk result (λ bytes. length bytes.items ≤ most) }

    ensures count { F.count folder.new ≡ F.count folder.old }
    ensures files { F.files folder.new ≡ F.files folder.old }
    ensures later { F.faults folder.old ≤ F.faults folder.new }
{
    match read_whole(alloc, folder, number, most) {
        Ok(bytes) => Ok(bytes),
        Err(ReadError::Memory) => Err(InputError::Memory),
        Err(ReadError::Failed) => Err(InputError::Failed),
        Err(ReadError::TooLarge) => {
            let file = Name::copy_of(alloc, name)?;
            Err(InputError::Limit(LimitFault::FileBytes { file }))
        }
    }
}
