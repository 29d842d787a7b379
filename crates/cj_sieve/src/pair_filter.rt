//! The pairs that the filter keeps.
ghost use Rattle.std.specs.Prelude.{◌≡◌, ◌^◌, ◌<◌, ◌≤◌, ◌++◌, map, filter, length, All, IfOk, OnOk};
ghost use Rattle.std.specs.List.{sum};
ghost use Rattle.cj_base.specs.Bounds.{MOST_OBJECTS};
ghost use Rattle.cj_case.specs.CaseLimits.{MAX_SIZE};
ghost use Rattle.cj_case.specs.Pairs.{objects_of, pairs_of};
ghost use Rattle.cj_case.specs.PlainProblems.{threshold_between};
ghost use Rattle.cj_bezier.specs.Shells.{keeps_between, shell_in};
ghost use Rattle.cj_bezier.specs.Shells as spec;
ghost use Rattle.cj_sieve.specs.Among.{keeps_among, kept_among, row_among};

use crate::parted_shells::parted;
use crate::shelled_objects::ShelledObjects;
use cj_case::{Pair, Primaries, Shell, threshold_between};
use cj_threads::{Nobody, map_dealt};
use std::alloc::{AllocError, Global};
use std::thread::Threads;

/// The shell of an object, where it has one.
fn shell_of_object(shells: &[Option<Shell>], object: u32) -> Option<Shell>
    ensures { result ≡ shell_in shells.now object }
{
    *shells.get(object as usize)?
}

/// Whether a pair of these objects is kept: one of the two is a primary, both have shells, and these are not parted by the threshold between
/// the two.
pub fn keeps(objects: &ShelledObjects<'_>, pair: Pair) -> bool
    requires { pair.b < length objects.now.shells.now }
    ensures value { result ≡ keeps_among objects.now (objects_of pair) }
{
    objects.primaries.concern(pair) && are_close(objects, pair)
}

/// Whether both objects of a pair have shells which are not parted by the threshold between the two.
fn are_close(objects: &ShelledObjects<'_>, pair: Pair) -> bool
    requires { pair.b < length objects.now.shells.now }
    ensures { result ≡ spec.keeps (threshold_between objects.now.thr objects.now.sizes.now pair.a pair.b) objects.now.shells.now (objects_of pair) }
{
    let between = threshold_between(objects.sizes, objects.thr, pair);
    match (
        shell_of_object(objects.shells, pair.a),
        shell_of_object(objects.shells, pair.b),
    ) {
        (Some(a), Some(b)) => !parted(a, b, between),
        _ => false,
    }
}

/// How many kept pairs an object has with those of higher numbers.
fn count_row(a: u32, objects: &ShelledObjects<'_>) -> u64
    requires { a < length objects.now.shells.now }
    ensures value { result ≡ length (row_among objects.now a) }
    ensures few { result ≤ MOST_OBJECTS }
{
    let mut count = 0;
    for b in a + 1..objects.shells.len() as u32 {
        if keeps(objects, Pair { a, b }) {
            count += 1;
        }
    }
    count
}

/// The sum of what each object has, which is no more than there may be objects.
fn sum_of(counts: &[u64]) -> u64
    requires objects { length counts.now ≤ MOST_OBJECTS }
    requires few { All (λ count. count ≤ MOST_OBJECTS) counts.now }
    ensures { result ≡ sum counts.now }
{
    let mut sum = 0;
    for count in counts {
        sum += count;
    }
    sum
}

/// So many objects, or more, are worth several threads.
const OBJECTS_FOR_THREADS: usize = 1_000;

/// How many pairs of these objects are kept. Where there are many objects, as many threads count as there are workers: each takes the next
/// object that no other has taken.
pub fn count_kept<R: Threads + Sync>(
    rt: &R,
    alloc: Global,
    objects: &ShelledObjects<'_>,
    workers: u32,
) -> Result<u64, AllocError>
    ensures value { IfOk result (λ count. count ≡ length (kept_among objects.now)) }
{
    let count = |a: usize| -> u64
        requires { a < length objects.now.shells.now }
        ensures { result ≡ length (row_among objects.entry.now a) }
    { count_row(a as u32, objects) };
    let many = objects.shells.len();
    let threads = if many < OBJECTS_FOR_THREADS {
        1
    } else {
        workers as usize
    };
    let counts = map_dealt(rt, alloc, many, threads, &Nobody, &count)?;
    Ok(sum_of(&counts))
}

/// Appends the kept pairs of an object with those of higher numbers.
fn append_row(a: u32, objects: &ShelledObjects<'_>, pairs: &mut Vec<Pair>) -> Result<(), AllocError>
    requires { a < length objects.now.shells.now }
    ensures { OnOk result (map objects_of pairs.new.items ≡ map objects_of pairs.old.items ++ row_among objects.now a) }
{
    for b in a + 1..objects.shells.len() as u32 {
        let pair = Pair { a, b };
        if keeps(objects, pair) {
            pairs.push(pair)?;
        }
    }
    Ok(())
}

/// The pairs of these objects that are kept, in order.
fn list_kept(alloc: Global, objects: &ShelledObjects<'_>) -> Result<Vec<Pair>, AllocError>
    ensures { IfOk result (λ pairs. map objects_of pairs.items ≡ kept_among objects.now) }
{
    let mut pairs = Vec::new(alloc);
    for a in 0..objects.shells.len() as u32 {
        append_row(a, objects, &mut pairs)?;
    }
    Ok(pairs)
}

/// The pairs with a primary that have shells which are not parted by a threshold in nm between objects of these sizes, in order.
pub fn kept_pairs(
    alloc: Global,
    shells: &[Option<Shell>],
    sizes: &[u64],
    primaries: &Primaries,
    thr: u64,
) -> Result<Vec<Pair>, AllocError>
    requires few { length shells.now ≤ MOST_OBJECTS }
    requires sized { length sizes.now ≡ length shells.now }
    requires small { All (λ size. size ≤ MAX_SIZE) sizes.now }
    requires least { 10 ^ 9 ≤ thr }
    requires most { thr ≤ 10 ^ 15 }

    ensures value { IfOk result (λ pairs. map objects_of pairs.items ≡ filter (keeps_between primaries.now thr sizes.now shells.now) (pairs_of (length shells.now))) }
{
    list_kept(
        alloc,
        &ShelledObjects {
            shells,
            sizes,
            primaries,
            thr,
        },
    )
}
