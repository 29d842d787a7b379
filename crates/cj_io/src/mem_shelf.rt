ghost use Rattle.std.specs.Prelude.{◌≡◌, ◌↔◌, [], Some, IsErrOf, IsTrue, OnErr};
ghost use Rattle.cj_io.specs.Calls.{fails_next, after_call};
ghost use Rattle.cj_io.specs.Files.{Puts};
ghost use Rattle.cj_io.specs.Parts.{joined};

use crate::calls::Calls;
use crate::{CalmShelf, FileBytes, PutError, Shelf};
use std::alloc::Global;
use std::marker::Model;

/// A shelf in memory whose puts fail where their numbers are listed. Nothing is put by one that fails.
#[derive(Debug, Drop)]
pub struct MemShelf {
    shelf: CalmShelf,
    calls: Calls,
}

impl Model for MemShelf {
    ghost use Rattle.cj_io.specs.Memory.{ShelfInMemory};

    ghost Value = { ShelfInMemory };

    ghost view = { λ s. record { outputs = s.shelf; calls = s.calls } };
}

impl MemShelf {
    /// An empty shelf whose calls of these numbers fail. The calls are counted from 1.
    pub fn new(alloc: Global, failing: Vec<u64>) -> Self
        ensures { result ≡ record { outputs = []; calls = record { failing = failing.items; made = 0; faults = 0 } } }
    {
        MemShelf {
            shelf: CalmShelf::new(alloc),
            calls: Calls::new(failing),
        }
    }

    /// Whether the next put fails.
    pub fn fails_next(&self) -> bool
        ensures { result ≡ fails_next self.now.calls }
    {
        self.calls.fails_next()
    }

    /// The outputs that stand.
    pub fn written(&self) -> &[FileBytes]
        ensures { result.now ≡ self.now.outputs }
    {
        self.shelf.written()
    }
}

impl Shelf for MemShelf {
    ghost outputs = { λ s. Some s.outputs };

    ghost faults = { λ s. s.calls.faults };

    ghost refusals = { λ s. 0 };

    fn put(&mut self, alloc: Global, name: &[u8], bytes: &[u8]) -> Result<(), PutError>
        ensures fails { IsErrOf result PutError.Failed ↔ IsTrue (fails_next self.old.calls) }
        ensures outputs { Puts name.now bytes.now result self.old.outputs self.new.outputs }
        ensures nothing { OnErr result (self.new.outputs ≡ self.old.outputs) }
        ensures counted { self.new.calls ≡ after_call self.old.calls }
    {
        if self.calls.next_fails() {
            return Err(PutError::Failed);
        }
        self.shelf.put(alloc, name, bytes)
    }

    fn put_parts(&mut self, alloc: Global, name: &[u8], parts: &[Vec<u8>]) -> Result<(), PutError>
        ensures fails { IsErrOf result PutError.Failed ↔ IsTrue (fails_next self.old.calls) }
        ensures outputs { Puts name.now (joined parts.now) result self.old.outputs self.new.outputs }
        ensures nothing { OnErr result (self.new.outputs ≡ self.old.outputs) }
        ensures counted { self.new.calls ≡ after_call self.old.calls }
    {
        if self.calls.next_fails() {
            Err(PutError::Failed)
        } else {
            self.shelf.put_parts(alloc, name, parts)
        }
    }
}
