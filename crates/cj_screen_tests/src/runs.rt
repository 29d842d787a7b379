//! Runs of the top call.
use cj_base::{Text, Tick};
use cj_io::{
    Bytes, CalmFolder, CalmShelf, FileBytes, Folder, Gate, MemFolder, Name, OpenGate, StreamShelf,
};
use cj_screen::conj;
use cj_status::{Status, fault_text};
use cj_words::Word;
use std::alloc::{AllocError, Global};
use std::sync::Wait;
use std::thread::Threads;

/// The words of a command line that are separated by spaces.
fn words(alloc: Global, line: &str) -> Result<Vec<Word>, AllocError> {
    let mut words = Vec::new(alloc);
    for word in line.as_bytes().split(|b| *b == b' ') {
        words.push(Text::copy_of(alloc, word)?)?;
    }
    Ok(words)
}

/// A folder that never fails.
pub fn calm(alloc: Global, files: Vec<FileBytes>) -> CalmFolder {
    if files.len() < 10_000 {
        CalmFolder::new(files)
    } else {
        CalmFolder::new(Vec::new(alloc))
    }
}

/// A folder whose calls with these numbers fail.
fn failing(alloc: Global, files: Vec<FileBytes>, calls: Vec<u64>) -> MemFolder {
    if files.len() < 10_000 {
        MemFolder::new(files, calls)
    } else {
        MemFolder::new(Vec::new(alloc), calls)
    }
}

/// A file of these bytes.
pub fn file(alloc: Global, name: &[u8], bytes: &[u8]) -> Result<FileBytes, AllocError> {
    Ok(FileBytes {
        name: Name::copy_of(alloc, name)?,
        bytes: Bytes::copy_of(alloc, bytes)?,
    })
}

/// These files, and a certificate of this text behind them.
pub fn with_certificate(
    alloc: Global,
    mut files: Vec<FileBytes>,
    text: &[u8],
) -> Result<Vec<FileBytes>, AllocError> {
    files.push(file(alloc, b"screen.cert", text)?)?;
    Ok(files)
}

/// The bytes of the output of this name, none where there is no such output.
pub fn output_of<'p>(outputs: &'p [FileBytes], name: &[u8]) -> &'p [u8] {
    for output in outputs {
        if output.name.as_slice() == name {
            return output.bytes.as_slice();
        }
    }
    b""
}

/// Whether the outputs have these names, in order.
pub fn are_named(outputs: &[FileBytes], names: &[&str]) -> bool {
    outputs.len() == names.len()
        && outputs
            .iter()
            .zip(names)
            .all(|(output, name)| output.name.as_slice() == name.as_bytes())
}

/// How a run ended: the number of its status, and the line that tells of a failure, which is empty where there was none.
#[derive(Drop)]
pub struct End {
    pub number: u8,
    pub line: Vec<u8>,
}

fn end_of(alloc: Global, status: &Status) -> Result<End, AllocError> {
    Ok(End {
        number: status.number(),
        line: fault_text(alloc, status)?,
    })
}

/// How a command line ends over this folder and shelf at this time, where workers enter this gate.
fn end_at_gate<R: Threads + Wait + Sync, F: Folder, S: StreamShelf, G: Gate + Sync>(
    rt: &R,
    alloc: Global,
    line: &str,
    folder: &mut F,
    shelf: &mut S,
    now: Tick,
    gate: &G,
) -> Result<End, AllocError> {
    let words = words(alloc, line)?;
    let status = conj(rt, alloc, &words, folder, shelf, now, gate);
    end_of(alloc, &status)
}

/// How a command line ends over this folder and shelf at this time.
pub fn end_over<R: Threads + Wait + Sync, F: Folder, S: StreamShelf>(
    rt: &R,
    alloc: Global,
    line: &str,
    folder: &mut F,
    shelf: &mut S,
    now: Tick,
) -> Result<End, AllocError> {
    end_at_gate(rt, alloc, line, folder, shelf, now, &OpenGate)
}

/// How a command line ends over these files where these calls of their folder fail.
pub fn end_failing<R: Threads + Wait + Sync, S: StreamShelf>(
    rt: &R,
    alloc: Global,
    line: &str,
    files: Vec<FileBytes>,
    calls: Vec<u64>,
    shelf: &mut S,
) -> Result<End, AllocError> {
    let mut folder = failing(alloc, files, calls);
    end_over(rt, alloc, line, &mut folder, shelf, Tick::FIRST)
}

/// How a command line ends that needs no folder: each call of its folder fails.
pub fn end_alone<R: Threads + Wait + Sync, S: StreamShelf>(
    rt: &R,
    alloc: Global,
    line: &str,
    shelf: &mut S,
) -> Result<End, AllocError> {
    let calls = Vec::from_array(alloc, [1, 2])?;
    end_failing(rt, alloc, line, Vec::new(alloc), calls, shelf)
}

/// Runs a command line over these files at this time. It gives how the run ended, and the shelf with what it put.
pub fn run_at<R: Threads + Wait + Sync>(
    rt: &R,
    alloc: Global,
    line: &str,
    files: Vec<FileBytes>,
    now: Tick,
) -> Result<(End, CalmShelf), AllocError> {
    let mut folder = calm(alloc, files);
    let mut shelf = CalmShelf::new(alloc);
    let end = end_over(rt, alloc, line, &mut folder, &mut shelf, now)?;
    Ok((end, shelf))
}

/// Runs a command line over these files, whose workers enter this gate. It gives how the run ended, and the shelf with what it put.
pub fn run_at_gate<R: Threads + Wait + Sync, G: Gate + Sync>(
    rt: &R,
    alloc: Global,
    line: &str,
    files: Vec<FileBytes>,
    gate: &G,
) -> Result<(End, CalmShelf), AllocError> {
    let mut folder = calm(alloc, files);
    let mut shelf = CalmShelf::new(alloc);
    let end = end_at_gate(rt, alloc, line, &mut folder, &mut shelf, Tick::FIRST, gate)?;
    Ok((end, shelf))
}

/// How a run ended, and what it put.
#[derive(Drop)]
pub struct Ran {
    pub number: u8,
    pub outputs: usize,
    pub report: Vec<u8>,
    pub certificate: Vec<u8>,
    /// What it told: on standard output where all went well, or of the failure.
    pub told: Vec<u8>,
}

/// What a run told: on standard output where all went well, or of a failure behind which nothing was put.
fn told_of(alloc: Global, end: &End, outputs: &[FileBytes]) -> Result<Vec<u8>, AllocError> {
    let told = if end.number == 0 {
        output_of(outputs, b"-")
    } else if outputs.is_empty() {
        end.line.as_slice()
    } else {
        b"a piece was put".as_slice()
    };
    Vec::from_slice(alloc, told)
}

fn seen(alloc: Global, end: &End, outputs: &[FileBytes]) -> Result<Ran, AllocError> {
    Ok(Ran {
        number: end.number,
        outputs: outputs.len(),
        report: Vec::from_slice(alloc, output_of(outputs, b"screen.report"))?,
        certificate: Vec::from_slice(alloc, output_of(outputs, b"screen.cert"))?,
        told: told_of(alloc, end, outputs)?,
    })
}

/// Runs a command line over these files.
pub fn run<R: Threads + Wait + Sync>(
    rt: &R,
    alloc: Global,
    line: &str,
    files: Vec<FileBytes>,
) -> Result<Ran, AllocError> {
    let (end, shelf) = run_at(rt, alloc, line, files, Tick::FIRST)?;
    seen(alloc, &end, shelf.written())
}

/// What a run of a command line over these files tells.
pub fn told<R: Threads + Wait + Sync>(
    rt: &R,
    alloc: Global,
    line: &str,
    files: Vec<FileBytes>,
) -> Result<Vec<u8>, AllocError> {
    let (end, shelf) = run_at(rt, alloc, line, files, Tick::FIRST)?;
    told_of(alloc, &end, shelf.written())
}

/// The certificate that a run of a command line over these files puts.
pub fn certificate_of<R: Threads + Wait + Sync>(
    rt: &R,
    alloc: Global,
    line: &str,
    files: Vec<FileBytes>,
) -> Result<Vec<u8>, AllocError> {
    let (_, shelf) = run_at(rt, alloc, line, files, Tick::FIRST)?;
    Vec::from_slice(alloc, output_of(shelf.written(), b"screen.cert"))
}

/// Whether just this is told.
pub fn is_told<R: Threads + Wait + Sync>(
    rt: &R,
    alloc: Global,
    line: &str,
    files: Vec<FileBytes>,
    due: &[u8],
) -> Result<bool, AllocError> {
    let told = told(rt, alloc, line, files)?;
    Ok(told.as_slice() == due)
}
