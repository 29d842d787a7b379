ghost use Rattle.std.specs.Prelude.{◌≡◌, ◌<◌, ◌^◌, ◌≤◌, length, Some, IfOk, IsOkAnd, IsOkUnless};
ghost use Rattle.cj_io.specs.Files.{names_of, bytes_of, ReadsFrom};
ghost use Rattle.cj_io.specs.declared.folder.FolderError.TheVariants.{Memory};

use crate::{Failed, FileBytes, Folder, FolderError, Name};
use std::alloc::{AllocError, Global};
use std::marker::Model;

/// A folder in memory that never fails. Contracts see it as the list of its files.
#[derive(Debug, Drop)]
pub struct CalmFolder {
    files: Vec<FileBytes>,
}

impl Model for CalmFolder {
    ghost use Rattle.std.specs.Prelude.{List, ◌<◌, ◌^◌, length};
    ghost use Rattle.cj_io.specs.declared.file.FileBytes.{FileBytes};

    ghost Value = { List FileBytes };

    ghost view = { λ f. f.files.items };

    ghost invariant = { λ f. length f.files.items < 2 ^ 32 };
}

impl CalmFolder {
    pub fn new(files: Vec<FileBytes>) -> Self
        requires { length files.items < 2 ^ 32 }
        ensures { result ≡ files.items }
    {
        CalmFolder { files }
    }
}

impl Folder for CalmFolder {
    ghost files = { λ files. Some files };

    ghost count = { λ files. length files };

    ghost faults = { λ files. 0 };

    fn names(&mut self, alloc: Global) -> Result<Vec<Name>, FolderError>
        ensures only { IsOkUnless result FolderError.Memory }
        ensures names { IfOk result (λ names. names.items ≡ names_of self.old) }
        ensures numbered { IfOk result (λ names. length names.items < 2 ^ 32) }
        ensures same { self.new ≡ self.old }
    {
        Ok(copy_names(alloc, &self.files)?)
    }

    fn read(&mut self, file: u32, at: u64, buf: &mut [u8]) -> Result<u32, Failed>
        requires { file < length self.old }
        ensures within { IsOkAnd result (λ n. n ≤ length buf.new) }
        ensures bytes { IsOkAnd result (λ n. ReadsFrom (bytes_of self.old file) at n buf.new) }
        ensures same { self.new ≡ self.old }
    {
        let file = &self.files[file as usize];
        Ok(read_at(file.bytes.as_slice(), at, buf))
    }
}

fn copy_names(alloc: Global, files: &[FileBytes]) -> Result<Vec<Name>, AllocError>
    ensures { IfOk result (λ names. names.items ≡ names_of files.now) }
{
    let mut names = Vec::with_capacity(alloc, files.len())?;
    for file in files {
        names.push(Name::copy_of(alloc, file.name.as_slice())?)?;
    }
    Ok(names)
}

fn read_at(bytes: &[u8], at: u64, buf: &mut [u8]) -> u32
    ensures within { result ≤ length buf.new }
    ensures bytes { ReadsFrom bytes.now at result buf.new }
{
    let at = (at as usize).min(bytes.len());
    let rest = &bytes[at..];
    let count = rest.len().min(buf.len()).min(u32::MAX as usize);
    buf[..count].copy_from_slice(&rest[..count]);
    count as u32
}
