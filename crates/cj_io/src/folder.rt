ghost use Rattle.std.specs.Prelude.{◌≡◌, ◌<◌, ◌≤◌, ◌^◌, List, ℕ, Option, length, IfOk, OnErr, IsErrOf};
ghost use Rattle.cj_io.specs.Faults.{Rose};
ghost use Rattle.cj_io.specs.Files.{names_of, bytes_of, ReadsFrom};
ghost use Rattle.cj_io.specs.declared.file.FileBytes.{FileBytes};
ghost use Rattle.cj_io.specs.declared.folder.FolderError.TheVariants.{Memory};

use crate::Name;
use std::alloc::{AllocError, AllocFailed, Global};

/// A file of a folder could not be read.
#[derive(Clone, Copy, Debug, PartialEq, Eq)]
pub struct Failed;

/// Why the names of a folder could not be listed.
#[derive(Clone, Copy, Debug, PartialEq, Eq)]
pub enum FolderError {
    /// There was no memory.
    Memory,
    /// The folder failed.
    Failed,
}

impl From<AllocError> for FolderError {
    ghost from_gives = { λ _ e. e ≡ Memory };

    fn from(_: AllocError) -> Self {
        FolderError::Memory
    }
}

impl<T: Drop> From<AllocFailed<T>> for FolderError {
    ghost from_gives = { λ _ e. e ≡ Memory };

    fn from(_: AllocFailed<T>) -> Self {
        FolderError::Memory
    }
}

/// A folder of files, numbered from 0 in the order of their names.
pub trait Folder {
    /// The files, where they are told.
    ghost files: { Self → Option (List FileBytes) };

    /// How many files can be read.
    ghost count: { Self → ℕ };

    /// How often the folder has failed. The count stops at the greatest value of a `u64`.
    ghost faults: { Self → ℕ };

    /// Lists the names of the files. From then on as many files can be read.
    fn names(&mut self, alloc: Global) -> Result<Vec<Name>, FolderError>
        ensures failed { IsErrOf result FolderError.Failed → Rose (faults self.old) (faults self.new) }

        ensures told { (fs : List FileBytes) → files self.old ≡ Some fs → IfOk result (λ names. names.items ≡ names_of fs) }
        ensures count { IfOk result (λ names. count self.new ≡ length names.items) }
        ensures numbered { IfOk result (λ names. length names.items < 2 ^ 32) }

        ensures files { files self.new ≡ files self.old }
        ensures later { faults self.old ≤ faults self.new };

    /// Reads bytes from place `at` of a file into the front of the buffer, and answers how many came. None come only at the
    /// end of the file or for an empty buffer.
    fn read(&mut self, file: u32, at: u64, buf: &mut [u8]) -> Result<u32, Failed>
        requires { file < count self.old }

        ensures failed { OnErr result (Rose (faults self.old) (faults self.new)) }

        ensures within { IfOk result (λ n. n ≤ length buf.new) }
        ensures told { (fs : List FileBytes) → files self.old ≡ Some fs → IfOk result (λ n. ReadsFrom (bytes_of fs file) at n buf.new) }

        ensures count { count self.new ≡ count self.old }
        ensures files { files self.new ≡ files self.old }
        ensures later { faults self.old ≤ faults self.new };
}
