//! Files that are parsed while the next are read.
ghost use Rattle.std.specs.Prelude.{◌≡◌, ◌<◌, ◌≤◌, List, Some, None, length, IfOk};
ghost use Rattle.std.specs.List.{All};
ghost use Rattle.std.specs.Thread.{IsSync};
ghost use Rattle.cj_io.specs.Faults.{Rose};
ghost use Rattle.cj_io.specs.declared.file.FileBytes.{FileBytes};
ghost use Rattle.cj_words.specs.Settings.{plain_settings};
ghost use Rattle.cj_inputs.specs.Batches.{AreParsed, IsBatchOf};

use crate::batch::{Batch, FileRead};
use crate::batching::read_batch;
use crate::input_files::Entry;
use crate::parsing::parse_files;
use crate::reading::InputError;
use cj_io::{Folder, Gate};
use cj_track::Track;
use cj_words::Settings;
use std::alloc::{AllocError, Global};
use std::thread::{Threads, join_mut};

/// What the files say that were read, by as many threads as there are workers, and the first of these entries, which this thread reads meanwhile.
pub fn parse_and_read<'a, R: Threads + Sync, F: Folder, G: Gate + Sync>(
    rt: &R,
    alloc: Global,
    gate: &G,
    folder: &mut F,
    read: &[FileRead<'_>],
    entries: &'a [Entry],
    settings: &Settings<'_>,
    workers: u32,
) -> (
    Result<Vec<Result<Track, InputError>>, AllocError>,
    Result<Batch<'a>, AllocError>,
)
    requires { All (λ entry. entry.number < F.count folder.old) entries.now }

    ensures parsed { IfOk result.0 (λ readings. AreParsed (plain_settings settings.now) read.now readings.items) }

    ensures fault { IfOk result.1 (λ batch. batch.stop ≡ Some InputError.Failed → Rose (F.faults folder.old) (F.faults folder.new)) }
    ensures told { (files : List FileBytes) → F.files folder.old ≡ Some files → IfOk result.1 (IsBatchOf files entries.now) }
    ensures few { IfOk result.1 (λ batch. length batch.files.items ≤ length entries.now) }
    ensures some { IfOk result.1 (λ batch. batch.stop ≡ None → 0 < length entries.now → 0 < length batch.files.items) }

    ensures count { F.count folder.new ≡ F.count folder.old }
    ensures files { F.files folder.new ≡ F.files folder.old }
    ensures later { F.faults folder.old ≤ F.faults folder.new }
{
    let mut parse = || -> Result<Vec<Result<Track, InputError>>, AllocError>
        requires { IsSync R.row × IsSync G.row }
        ensures { IfOk result (λ readings. AreParsed (plain_settings settings.entry.now) read.entry.now readings.items) }
    { parse_files(rt, alloc, gate, read, settings, workers) };
    let mut read_on = || read_batch(alloc, folder, entries, workers, read.len());
    join_mut(rt, &mut parse, &mut read_on)
}
