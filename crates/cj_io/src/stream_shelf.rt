ghost use Rattle.std.specs.Prelude.{◌≡◌, ◌↔◌, ◌⊎◌, ◌≤◌, IsErrOf, IsTrue, OnErr};
ghost use Rattle.std.specs.Thread.{IsSync};
ghost use Rattle.cj_io.specs.Faults.{Rose};
ghost use Rattle.cj_io.specs.Calls.{fails_next, after_call};
ghost use Rattle.cj_io.specs.Files.{Puts, Told};
ghost use Rattle.cj_io.specs.declared.shelf.PutError.{PutError};

use crate::calm_shelf::CalmShelf;
use crate::gathering::all_parts;
use crate::mem_shelf::MemShelf;
use crate::part_source::PartSource;
use crate::shelf::{PutError, Shelf};
use std::alloc::Global;
use std::thread::Threads;

/// A shelf on which an output is put while it is made.
pub trait StreamShelf: Shelf {
    /// Puts one output behind those that stand, of the bytes that the source still has to make. Want of memory, also of the source,
    /// leaves all as it was; after a fault a last output of this name may stand cut short.
    fn put_made<R: Threads + Sync, M: PartSource>(
        &mut self,
        rt: &R,
        alloc: Global,
        name: &[u8],
        source: &mut M,
    ) -> Result<(), PutError>
        // What the bound says: the threads share the runtime.
        requires shared { IsSync R.row }

        ensures failed { IsErrOf result PutError.Failed → Rose (Self.faults self.old) (Self.faults self.new) }
        ensures memory { IsErrOf result PutError.Memory → Self.faults self.new ≡ Self.faults self.old }
        ensures outputs { Told (Puts name.now (M.rest source.old) result) (Self.outputs self.old) (Self.outputs self.new) }
        ensures later { Self.faults self.old ≤ Self.faults self.new }
    {
        let parts = all_parts(rt, alloc, source)?;
        self.put_parts(alloc, name, &parts)
    }
}

impl StreamShelf for CalmShelf {}

impl StreamShelf for MemShelf {
    fn put_made<R: Threads + Sync, M: PartSource>(
        &mut self,
        rt: &R,
        alloc: Global,
        name: &[u8],
        source: &mut M,
    ) -> Result<(), PutError>
        requires shared { IsSync R.row }

        ensures fails { IsErrOf result PutError.Failed ↔ IsTrue (fails_next self.old.calls) }
        ensures outputs { Puts name.now (M.rest source.old) result self.old.outputs self.new.outputs }
        ensures nothing { OnErr result (self.new.outputs ≡ self.old.outputs) }
        // Want of memory of the source is no call.
        ensures counted { IsErrOf result PutError.Memory ⊎ (self.new.calls ≡ after_call self.old.calls) }

        ensures failed { IsErrOf result PutError.Failed → Rose self.old.calls.faults self.new.calls.faults }
        ensures memory { IsErrOf result PutError.Memory → self.new.calls.faults ≡ self.old.calls.faults }
        ensures later { self.old.calls.faults ≤ self.new.calls.faults }
    {
        if self.fails_next() {
            return self.put(alloc, name, b"");
        }
        let made = all_parts(rt, alloc, source)?;
        self.put_parts(alloc, name, &made)
    }
}
