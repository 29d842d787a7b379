//! How many pairs are unchanged.
ghost use Rattle.std.specs.Prelude.{◌≡◌, ◌<◌, ◌≤◌, filter, length, map, All, IfOk};
ghost use Rattle.cj_base.specs.Bounds.{MOST_OBJECTS};
ghost use Rattle.cj_bezier.specs.Candidates.{is_kept_unchanged, shells_of};
ghost use Rattle.cj_case.specs.Pairs.{objects_of, pairs_of};
ghost use Rattle.cj_case.specs.Problems.{plain_problem};
ghost use Rattle.cj_case.specs.Unchanged.{is_unchanged};
ghost use Rattle.cj_again.specs.KeptPairs.{row_kept_unchanged};

use crate::matching::Matching;
use crate::objects_matched::match_objects;
use cj_case::{Pair, Problem, Shell};
use cj_sieve::{ShelledObjects, keeps};
use std::alloc::{AllocError, Global};

/// How many of some pairs of new objects are unchanged.
pub fn count_unchanged(matching: &Matching<'_>, pairs: &[Pair]) -> u64
    requires { All (λ pair. pair.b < length matching.now.new.now.tracks) pairs.now }
    ensures { result ≡ length (filter (is_unchanged (plain_problem matching.now.old.now) (plain_problem matching.now.new.now)) (map objects_of pairs.now)) }
{
    let mut count = 0;
    for pair in pairs {
        if matching.is_unchanged(*pair) {
            count += 1;
        }
    }
    count
}

/// How many of some pairs of the new problem are unchanged.
pub fn unchanged(
    alloc: Global,
    old: &Problem,
    new: &Problem,
    pairs: &[Pair],
) -> Result<u64, AllocError>
    requires { All (λ pair. pair.b < length new.now.tracks) pairs.now }
    ensures { IfOk result (λ count. count ≡ length (filter (is_unchanged (plain_problem old.now) (plain_problem new.now)) (map objects_of pairs.now))) }
{
    let matching = match_objects(alloc, old, new)?;
    Ok(count_unchanged(&matching, pairs))
}

/// Whether a pair of new objects with these shells is kept, and is unchanged.
fn is_kept_too(matching: &Matching<'_>, objects: &ShelledObjects<'_>, pair: Pair) -> bool
    requires exists { pair.b < length matching.now.new.now.tracks }
    requires shells { objects.now.shells.now ≡ shells_of (plain_problem matching.now.new.now) }
    requires sizes { objects.now.sizes.now ≡ matching.now.new.now.sizes }
    requires primaries { objects.now.primaries.now ≡ matching.now.new.now.primaries }
    requires threshold { objects.now.thr ≡ matching.now.new.now.threshold }
    ensures { result ≡ is_kept_unchanged (plain_problem matching.now.old.now) (plain_problem matching.now.new.now) (objects_of pair) }
{
    keeps(objects, pair) && matching.is_unchanged(pair)
}

/// How many such pairs an object has with those of higher numbers.
fn count_row(matching: &Matching<'_>, objects: &ShelledObjects<'_>, a: u32) -> u64
    requires exists { a < length matching.now.new.now.tracks }
    requires shells { objects.now.shells.now ≡ shells_of (plain_problem matching.now.new.now) }
    requires sizes { objects.now.sizes.now ≡ matching.now.new.now.sizes }
    requires primaries { objects.now.primaries.now ≡ matching.now.new.now.primaries }
    requires threshold { objects.now.thr ≡ matching.now.new.now.threshold }
    ensures value { result ≡ length (row_kept_unchanged (plain_problem matching.now.old.now) (plain_problem matching.now.new.now) a) }
    ensures few { result ≤ MOST_OBJECTS }
{
    let mut count = 0;
    for b in a + 1..objects.shells.len() as u32 {
        if is_kept_too(matching, objects, Pair { a, b }) {
            count += 1;
        }
    }
    count
}

/// How many pairs of the new problem, whose objects have these shells, are kept and are unchanged.
pub fn kept_unchanged(matching: &Matching<'_>, shells: &[Option<Shell>]) -> u64
    requires { shells.now ≡ shells_of (plain_problem matching.now.new.now) }
    ensures { result ≡ length (filter (is_kept_unchanged (plain_problem matching.now.old.now) (plain_problem matching.now.new.now))
        (pairs_of (length matching.now.new.now.tracks))) }
{
    let objects = ShelledObjects {
        shells,
        sizes: matching.new.sizes.as_slice(),
        primaries: &matching.new.primaries,
        thr: matching.new.threshold,
    };
    let mut count = 0;
    for a in 0..shells.len() as u32 {
        count += count_row(matching, &objects, a);
    }
    count
}
