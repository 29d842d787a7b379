//! The parts of a list, which several threads take, and what comes of each in the order of the parts.
ghost use Rattle.std.specs.Prelude.{◌≡◌, ℕ, ◌<◌, ◌≤◌, ◌*◌, IfOk, Ok, length, map, take, drop};
ghost use Rattle.cj_threads.specs.Dealing.{IsPartOf, TakesParts, GivesPart, ComeOfParts};

use crate::dealing::map_dealt;
use crate::told::Told;
use std::alloc::{AllocError, Global};
use std::thread::Threads;

/// How many parts of so many elements a list has. An empty list has one, which is empty.
fn part_count(len: usize, size: usize) -> usize
    requires { 0 < size }
    ensures some { 0 < result }
    ensures covers { len ≤ result * size }
    ensures inside { (n : ℕ) → n < result → n * size ≤ len }
{
    len.div_ceil(size).max(1)
}

/// The part with a number of a list in parts of so many elements, the last of which may have fewer.
fn part_at<T>(list: &[T], size: usize, number: usize) -> &[T]
    requires { number * size ≤ length list.now }
    ensures value { result.now ≡ take size (drop (number * size) list.now) }
    ensures part { IsPartOf list.now result.now }
{
    let (_, rest) = list.split_at(number * size);
    let (part, _) = rest.split_at(size.min(rest.len()));
    part
}

/// What was made, or that memory was wanting for some of it.
pub fn all_made<X: Drop>(
    alloc: Global,
    outputs: Vec<Result<X, AllocError>>,
) -> Result<Vec<X>, AllocError>
    ensures { IfOk result (λ made. map Ok made.items ≡ outputs.items) }
{
    let mut made = Vec::with_capacity(alloc, outputs.len())?;
    for output in outputs {
        made.push(output?)?;
    }
    Ok(made)
}

/// What comes of the parts of a list, one behind another, by as many threads as there are workers: each takes the next part that no other has
/// taken. Parts have so many elements, but the last may have fewer. An empty list is one part.
pub fn map_parts<
    R: Threads + Sync,
    T: Sync,
    X: Send + Drop,
    F: Fn(&[T]) -> Result<X, AllocError> + Sync,
    G: Told + Sync,
>(
    rt: &R,
    alloc: Global,
    list: &[T],
    size: usize,
    workers: usize,
    told: &G,
    f: &F,
) -> Result<Vec<X>, AllocError>
    requires size { 0 < size }
    requires accepts { TakesParts F.Fn f.now list.now }
    ensures some { IfOk result (λ outputs. 0 < length outputs.items) }
    ensures each { IfOk result (λ outputs. ComeOfParts F.Fn f.now list.now outputs.items) }
{
    let part = |number: usize| -> Result<X, AllocError>
        requires { TakesParts F.Fn f.now list.now × (number * size ≤ length list.now) }
        ensures { GivesPart F.Fn f.entry.now size list.entry.now number result }
    { f(part_at(list, size, number)) };
    let count = part_count(list.len(), size);
    let outputs = map_dealt(rt, alloc, count, workers, told, &part)?;
    all_made(alloc, outputs)
}
