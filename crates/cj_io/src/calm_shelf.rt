ghost use Rattle.std.specs.Prelude.{◌≡◌, [], Some, IsOkUnless, OnErr};
ghost use Rattle.cj_io.specs.Files.{Puts};
ghost use Rattle.cj_io.specs.declared.shelf.PutError.TheVariants.{Memory};

use crate::{Bytes, FileBytes, Name, PutError, Shelf};
use std::alloc::Global;
use std::marker::Model;

/// A shelf in memory that never fails. Contracts see it as the list of its outputs.
#[derive(Debug, Drop)]
pub struct CalmShelf {
    outputs: Vec<FileBytes>,
}

impl Model for CalmShelf {
    ghost use Rattle.std.specs.Prelude.{List};
    ghost use Rattle.cj_io.specs.declared.file.FileBytes.{FileBytes};

    ghost Value = { List FileBytes };

    ghost view = { λ s. s.outputs.items };
}

impl CalmShelf {
    pub fn new(alloc: Global) -> Self
        ensures { result ≡ [] }
    {
        CalmShelf {
            outputs: Vec::new(alloc),
        }
    }

    /// The outputs that stand.
    pub fn written(&self) -> &[FileBytes]
        ensures { result.now ≡ self.now }
    {
        &self.outputs
    }
}

impl Shelf for CalmShelf {
    ghost outputs = { λ outputs. Some outputs };

    ghost faults = { λ outputs. 0 };

    ghost refusals = { λ outputs. 0 };

    fn put(&mut self, alloc: Global, name: &[u8], bytes: &[u8]) -> Result<(), PutError>
        ensures only { IsOkUnless result PutError.Memory }
        ensures outputs { Puts name.now bytes.now result self.old self.new }
    {
        let output = FileBytes {
            name: Name::copy_of(alloc, name)?,
            bytes: Bytes::copy_of(alloc, bytes)?,
        };
        self.outputs.push(output)?;
        Ok(())
    }
}
