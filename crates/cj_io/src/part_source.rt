ghost use Rattle.std.specs.Prelude.{◌≡◌, ◌<◌, ◌++◌, [], List, ℕ, length, IfOk};
ghost use Rattle.std.specs.Thread.{IsSync};
ghost use Rattle.cj_io.specs.Parts.{joined};

use std::alloc::{AllocError, Global};
use std::thread::Threads;

/// Bytes that are made part by part.
pub trait PartSource {
    /// The bytes that are still to be made.
    ghost rest: { Self → List ℕ };

    /// Falls with each batch.
    ghost left: { Self → ℕ };

    /// Makes the next parts, which stand one behind another; none where all is made. After want of memory nothing is known of what is left.
    fn next_parts<R: Threads + Sync>(
        &mut self,
        rt: &R,
        alloc: Global,
    ) -> Result<Vec<Vec<u8>>, AllocError>
        // What the bound says: the threads share the runtime.
        requires shared { IsSync R.row }

        ensures parts { IfOk result (λ parts. rest self.old ≡ joined parts.items ++ rest self.new) }
        ensures end { IfOk result (λ parts. parts.items ≡ [] → rest self.new ≡ []) }
        ensures falls { IfOk result (λ parts. 0 < length parts.items → left self.new < left self.old) };

    /// Whether several threads make the parts together. What is made may then be written meanwhile.
    fn is_shared(&self) -> bool;
}
