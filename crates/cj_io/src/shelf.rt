ghost use Rattle.std.specs.Prelude.{◌≡◌, ◌≤◌, List, ℕ, Option, IsErrOf};
ghost use Rattle.cj_io.specs.Faults.{Rose};
ghost use Rattle.cj_io.specs.Files.{Puts, Told};
ghost use Rattle.cj_io.specs.Parts.{joined};
ghost use Rattle.cj_io.specs.declared.file.FileBytes.{FileBytes};
ghost use Rattle.cj_io.specs.declared.shelf.PutError.TheVariants.{Memory};

use crate::parts::join_parts;
use std::alloc::{AllocError, AllocFailed, Global};

/// Why an output was not put.
#[derive(Clone, Copy, Debug, PartialEq, Eq)]
pub enum PutError {
    /// There was no memory.
    Memory,
    /// The shelf failed.
    Failed,
}

impl From<AllocError> for PutError {
    ghost from_gives = { λ _ e. e ≡ Memory };

    fn from(_: AllocError) -> Self {
        PutError::Memory
    }
}

impl<T: Drop> From<AllocFailed<T>> for PutError {
    ghost from_gives = { λ _ e. e ≡ Memory };

    fn from(_: AllocFailed<T>) -> Self {
        PutError::Memory
    }
}

/// What finished outputs are put on, one after another.
pub trait Shelf {
    /// The outputs, where they are told.
    ghost outputs: { Self → Option (List FileBytes) };

    /// How often the shelf has failed. The count stops at the greatest value of a `u64`.
    ghost faults: { Self → ℕ };

    /// How often a run was refused before its first output. The count stops at the greatest value of a `u64`.
    ghost refusals: { Self → ℕ };

    /// Called once before the first output, by a run whose inputs are all accepted. A shelf on which one run at a time may put its outputs
    /// fails where another does; one that says nothing of it has nothing to do here.
    fn begin(&mut self, _alloc: Global) -> Result<(), PutError>
        ensures failed { IsErrOf result PutError.Failed → Rose (faults self.old) (faults self.new) }
        ensures refused { IsErrOf result PutError.Failed → Rose (refusals self.old) (refusals self.new) }
        ensures memory { IsErrOf result PutError.Memory → faults self.new ≡ faults self.old }
        ensures outputs { outputs self.new ≡ outputs self.old }
        ensures later { faults self.old ≤ faults self.new }
    {
        Ok(())
    }

    /// Puts one output behind those that stand. Want of memory leaves all as it was; after a fault a last output of this name
    /// may stand cut short.
    fn put(&mut self, alloc: Global, name: &[u8], bytes: &[u8]) -> Result<(), PutError>
        ensures failed { IsErrOf result PutError.Failed → Rose (faults self.old) (faults self.new) }
        ensures memory { IsErrOf result PutError.Memory → faults self.new ≡ faults self.old }
        ensures outputs { Told (Puts name.now bytes.now result) (outputs self.old) (outputs self.new) }
        ensures later { faults self.old ≤ faults self.new };

    /// The same for an output whose bytes come in parts, one behind another.
    fn put_parts(&mut self, alloc: Global, name: &[u8], parts: &[Vec<u8>]) -> Result<(), PutError>
        ensures failed { IsErrOf result PutError.Failed → Rose (faults self.old) (faults self.new) }
        ensures memory { IsErrOf result PutError.Memory → faults self.new ≡ faults self.old }
        ensures outputs { Told (Puts name.now (joined parts.now) result) (outputs self.old) (outputs self.new) }
        ensures later { faults self.old ≤ faults self.new }
    {
        let bytes = join_parts(alloc, parts)?;
        self.put(alloc, name, &bytes)
    }
}
