ghost use Rattle.std.specs.Prelude.{◌≡◌, ◌<◌, ◌^◌, ◌≤◌, ◌↔◌, length, Some, IfOk, IsErr, IsErrOf, IsTrue};
ghost use Rattle.cj_io.specs.Calls.{fails_next, after_call};
ghost use Rattle.cj_io.specs.Files.{names_of, bytes_of, ReadsFrom};

use crate::calls::Calls;
use crate::{CalmFolder, Failed, FileBytes, Folder, FolderError, Name};
use std::alloc::Global;
use std::marker::Model;

/// A folder in memory whose calls fail where their numbers are listed.
#[derive(Debug, Drop)]
pub struct MemFolder {
    folder: CalmFolder,
    calls: Calls,
}

impl Model for MemFolder {
    ghost use Rattle.cj_io.specs.Memory.{FolderInMemory};

    ghost Value = { FolderInMemory };

    ghost view = { λ f. record { files = f.folder; calls = f.calls } };
}

impl MemFolder {
    /// A folder of these files whose calls of these numbers fail. The calls are counted from 1.
    pub fn new(files: Vec<FileBytes>, failing: Vec<u64>) -> Self
        requires { length files.items < 2 ^ 32 }
        ensures { result ≡ record { files = files.items; calls = record { failing = failing.items; made = 0; faults = 0 } } }
    {
        MemFolder {
            folder: CalmFolder::new(files),
            calls: Calls::new(failing),
        }
    }

    /// How many calls were made, up to the greatest value of a `u64`.
    pub fn calls(&self) -> u64
        ensures { result ≡ self.now.calls.made }
    {
        self.calls.made()
    }
}

impl Folder for MemFolder {
    ghost files = { λ f. Some f.files };

    ghost count = { λ f. length f.files };

    ghost faults = { λ f. f.calls.faults };

    fn names(&mut self, alloc: Global) -> Result<Vec<Name>, FolderError>
        ensures fails { IsErrOf result FolderError.Failed ↔ IsTrue (fails_next self.old.calls) }
        ensures names { IfOk result (λ names. names.items ≡ names_of self.old.files) }
        ensures numbered { IfOk result (λ names. length names.items < 2 ^ 32) }
        ensures counted { self.new ≡ record self.old { calls = after_call self.old.calls } }
    {
        if self.calls.next_fails() {
            return Err(FolderError::Failed);
        }
        self.folder.names(alloc)
    }

    fn read(&mut self, file: u32, at: u64, buf: &mut [u8]) -> Result<u32, Failed>
        requires { file < length self.old.files }
        ensures fails { IsErr result ↔ IsTrue (fails_next self.old.calls) }
        ensures within { IfOk result (λ n. n ≤ length buf.new) }
        ensures bytes { IfOk result (λ n. ReadsFrom (bytes_of self.old.files file) at n buf.new) }
        ensures counted { self.new ≡ record self.old { calls = after_call self.old.calls } }
    {
        if self.calls.next_fails() {
            return Err(Failed);
        }
        self.folder.read(file, at, buf)
    }
}
