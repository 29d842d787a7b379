//! Numbers that several threads take, each the next that no other has taken. Nothing is proved of the counter that they ask: what comes of a
//! number is put at its place, and what is missing is made at the end.
ghost use Rattle.std.specs.Prelude.{◌≡◌, ℕ, ◌<◌, All, IfOk, None, Some, vec_len, length, replicate, set};
ghost use Rattle.std.specs.Fork.{GivesEach};
ghost use Rattle.std.specs.Fn.{FnReturns};
ghost use Rattle.cj_threads.specs.Dealing.{IsDone, HoldWhatIsDone};

use crate::told::Told;
use std::alloc::{AllocError, Global};
use std::sync::atomic::{AtomicUsize, Ordering};
use std::thread::{Threads, map_indices};

/// What came of a number.
#[derive(Drop)]
pub struct Done<X> {
    pub number: usize,
    pub output: X,
}

/// What comes of the numbers that this thread is given by the counter.
fn take_numbers<X: Drop, F: Fn(usize) -> X, G: Told>(
    alloc: Global,
    count: usize,
    next: &AtomicUsize,
    told: &G,
    f: &F,
) -> Result<Vec<Done<X>>, AllocError>
    requires { (i : ℕ) → i < count → F.pre f.now i }
    ensures { IfOk result (λ done. All (IsDone F.Fn f.now count) done.items) }
{
    let mut done = Vec::new(alloc);
    for _ in 0..count {
        let number = next.fetch_add(1, Ordering::Relaxed);
        if number >= count {
            break;
        }
        let output = f(number);
        told.done(number);
        done.push(Done { number, output })?;
    }
    Ok(done)
}

/// What so many threads have done together. Nothing, where one thread is enough.
fn take_together<R: Threads + Sync, X: Send + Drop, F: Fn(usize) -> X + Sync, G: Told + Sync>(
    rt: &R,
    alloc: Global,
    count: usize,
    workers: usize,
    told: &G,
    f: &F,
) -> Result<Vec<Done<X>>, AllocError>
    requires { (i : ℕ) → i < count → F.pre f.now i }
    ensures { IfOk result (λ done. All (IsDone F.Fn f.now count) done.items) }
{
    let mut all = Vec::new(alloc);
    if workers < 2 || count < 2 {
        return Ok(all);
    }
    let next = AtomicUsize::new(0);
    let mut runs = map_indices(
        rt,
        alloc,
        workers.min(count),
        &|_| take_numbers(alloc, count, &next, told, f),
    )?;
    while let Some(run) = runs.pop() {
        all.append(&mut run?)?;
    }
    Ok(all)
}

/// A place for each of so many numbers, with nothing at it.
fn empty_places<X: Drop>(alloc: Global, count: usize) -> Result<Vec<Option<X>>, AllocError>
    ensures { IfOk result (λ places. places.items ≡ replicate count None) }
{
    let mut places = Vec::with_capacity(alloc, count)?;
    for _ in 0..count {
        places.push(None)?;
    }
    Ok(places)
}

/// Puts what came of a number at its place.
fn put_at<X: Drop>(places: &mut Vec<Option<X>>, done: Done<X>)
    requires { done.number < vec_len places.old }
    ensures { places.new.items ≡ set places.old.items done.number (Some done.output) }
{
    let Done { number, output } = done;
    places[number] = Some(output);
}

/// What was done of calls of this function, each output at the place of its number.
fn in_places<X: Drop, F: Fn(usize) -> X>(
    alloc: Global,
    count: usize,
    mut done: Vec<Done<X>>,
    _f: &F,
) -> Result<Vec<Option<X>>, AllocError>
    requires { All (IsDone F.Fn _f.now count) done.items }
    ensures len { IfOk result (λ places. length places.items ≡ count) }
    ensures hold { IfOk result (λ places. HoldWhatIsDone F.Fn _f.now places.items) }
{
    let mut places = empty_places(alloc, count)?;
    while let Some(one) = done.pop() {
        put_at(&mut places, one);
    }
    Ok(places)
}

/// What stands at the place of a number, or what comes of it now.
fn output_at<X: Drop, F: Fn(usize) -> X, G: Told>(
    place: Option<X>,
    number: usize,
    told: &G,
    f: &F,
) -> X
    requires callable { F.pre f.now number }
    requires holds { (x : X) → place ≡ Some x → FnReturns F.Fn f.now (number, tt) x }
    ensures { FnReturns F.Fn f.now (number, tt) result }
{
    match place {
        Some(output) => output,
        None => {
            let output = f(number);
            told.done(number);
            output
        }
    }
}

/// What comes of so many numbers, one behind another, by as many threads as there are workers: each takes the next that no other has taken.
/// Somebody is told of each number that is done.
pub fn map_dealt<R: Threads + Sync, X: Send + Drop, F: Fn(usize) -> X + Sync, G: Told + Sync>(
    rt: &R,
    alloc: Global,
    count: usize,
    workers: usize,
    told: &G,
    f: &F,
) -> Result<Vec<X>, AllocError>
    requires { (i : ℕ) → i < count → F.pre f.now i }
    ensures len { IfOk result (λ v. vec_len v ≡ count) }
    ensures each { IfOk result (λ v. GivesEach F.Fn f.now count v.items) }
{
    let done = take_together(rt, alloc, count, workers, told, f)?;
    let mut outputs = Vec::with_capacity(alloc, count)?;
    for place in in_places(alloc, count, done, f)? {
        let output = output_at(place, outputs.len(), told, f);
        outputs.push(output)?;
    }
    Ok(outputs)
}
