//! Files that are read one after another, to be parsed side by side.
ghost use Rattle.std.specs.Prelude.{◌≡◌, ◌<◌, ◌≤◌, List, Some, None, length, IfOk};
ghost use Rattle.std.specs.List.{All};
ghost use Rattle.cj_io.specs.Faults.{Rose};
ghost use Rattle.cj_io.specs.declared.file.FileBytes.{FileBytes};
ghost use Rattle.cj_inputs.specs.Batches.{IsBatchOf};

use crate::batch::{Batch, FileRead};
use crate::input_files::Entry;
use crate::reading::{InputError, read_file};
use cj_io::Folder;
use std::alloc::{AllocError, Global};

/// How many files of the first batch there are, at most, for each of several workers. It is read before any file is parsed, so it is small.
const FILES_A_WORKER: usize = 8;

/// A batch ends with the file that brings it to so many bytes.
const MANY_BYTES: u64 = 33_554_432;

/// How many files a batch has, at most, behind one of so many: twice as many, since threads begin anew with each batch. One worker parses
/// each file as it is read.
fn most_files(workers: u32, before: usize) -> usize
    ensures { 1 ≤ result }
{
    if workers < 2 {
        return 1;
    }
    let first = workers as usize * FILES_A_WORKER;
    first.max(before.saturating_mul(2))
}

/// Reads the first of these files, as many as so many workers parse together behind a batch of so many.
pub fn read_batch<'a, F: Folder>(
    alloc: Global,
    folder: &mut F,
    entries: &'a [Entry],
    workers: u32,
    before: usize,
) -> Result<Batch<'a>, AllocError>
    requires { All (λ entry. entry.number < F.count folder.old) entries.now }

    ensures fault { IfOk result (λ batch. batch.stop ≡ Some InputError.Failed → Rose (F.faults folder.old) (F.faults folder.new)) }
    ensures told { (files : List FileBytes) → F.files folder.old ≡ Some files
        → IfOk result (IsBatchOf files entries.now) }
    ensures few { IfOk result (λ batch. length batch.files.items ≤ length entries.now) }
    ensures some { IfOk result (λ batch. batch.stop ≡ None → 0 < length entries.now → 0 < length batch.files.items) }

    ensures count { F.count folder.new ≡ F.count folder.old }
    ensures files { F.files folder.new ≡ F.files folder.old }
    ensures later { F.faults folder.old ≤ F.faults folder.new }
{
    let most = most_files(workers, before);
    let mut files = Vec::new(alloc);
    let mut total = 0;
    for entry in entries {
        if files.len() >= most || total >= MANY_BYTES {
            break;
        }
        let name = entry.name.as_slice();
        match read_file(alloc, folder, entry.number, name) {
            Ok(bytes) => {
                total += bytes.len() as u64;
                files.push(FileRead { name, bytes })?;
            }
            Err(why) => {
                return Ok(Batch {
                    files,
                    stop: Some(why),
                });
            }
        }
    }
    Ok(Batch { files, stop: None })
}
