//! What `again` finds is what is found from nothing.
ghost use Rattle.std.specs.Prelude.{◌≡◌, ◌<◌};

use crate::cases::{Object, Objects, Size, case_of};
use cj_again::{AgainError, Screened, again};
use cj_candidates::roots_in_turn;
use cj_case::{Kind, Leaf, Pair, Problem};
use cj_cells::leaves_of;
use cj_io::OpenGate;
use cj_steps::Steps;
use std::alloc::Global;
use std::marker::Brand;
use std::panic::Expect;
use std::process::Abort;
use std::sync::ledger::{Blank, Ledger};

/// A problem screened from nothing.
fn screened(rt: &impl Abort, alloc: Global, problem: Problem) -> Screened
    ensures { result.problem ≡ problem }
{
    let roots = roots_in_turn(alloc, &problem, 1000).expect(rt, "no fault");
    let leaves = leaves_of(alloc, &OpenGate, &problem, &roots, 1000).expect(rt, "no fault");
    Screened::new(problem, leaves)
}

fn counted<L: Ledger>(
    blank: Blank,
    alloc: Global,
    old: &Screened,
    new: Problem,
    limit: u64,
) -> Result<Screened, AgainError>
    requires name { blank.name ≡ L.name }
    requires parts { blank.parts ≡ L.parts }
    requires some { 0 < blank.parts }
    requires first { new.window.first.micros ≡ old.now.problem.window.first.micros }
    requires last { new.window.last.micros ≡ old.now.problem.window.last.micros }
    requires threshold { new.threshold ≡ old.now.problem.threshold }
    requires limit { limit < 4_000_000 }
{
    let mut steps = Steps::<L>::new(blank);
    again(alloc, old, new, limit, &mut steps)
}

/// A problem screened again from an old one, with at most so many leaves.
fn from_old(alloc: Global, old: &Screened, new: Problem, limit: u64) -> Result<Screened, AgainError>
    requires first { new.window.first.micros ≡ old.now.problem.window.first.micros }
    requires last { new.window.last.micros ≡ old.now.problem.window.last.micros }
    requires threshold { new.threshold ≡ old.now.problem.threshold }
    requires limit { limit < 4_000_000 }
{
    counted::<Brand>(Blank::new(1), alloc, old, new, limit)
}

/// Whether two lists have the same leaves, whatever the numbers of their roots.
fn are_alike(one: &[Leaf], other: &[Leaf]) -> bool {
    one.len() == other.len()
        && one.iter().zip(other.iter()).all(|(s, t)| {
            s.cell.pair == t.cell.pair
                && s.cell.first == t.cell.first
                && s.cell.last == t.cell.last
                && s.kind == t.kind
        })
}

/// How many leaves a pair has of a kind.
fn count(leaves: &[Leaf], pair: Pair, kind: Kind) -> usize {
    leaves
        .iter()
        .filter(|leaf| leaf.cell.pair == pair && leaf.kind == kind)
        .count()
}

/// How many leaves a case has: those of a pair by their kind, and all.
#[derive(Clone, Copy, Debug, PartialEq, Eq)]
struct Counts {
    far: usize,
    near: usize,
    all: usize,
}

const FIRST_TWO: Pair = Pair { a: 0, b: 1 };

const LAST_TWO: Pair = Pair { a: 1, b: 2 };

/// What is found of new objects from old ones, with at most so many leaves.
fn found_again(
    rt: &impl Abort,
    alloc: Global,
    old: Objects,
    new: Objects,
    limit: u64,
    pair: Pair,
) -> Result<Counts, AgainError>
    requires { limit < 4_000_000 }
{
    let before = screened(rt, alloc, case_of(rt, alloc, old));
    let found = from_old(alloc, &before, case_of(rt, alloc, new), limit)?;
    Ok(Counts {
        far: count(&found.leaves, pair, Kind::Far),
        near: count(&found.leaves, pair, Kind::Near),
        all: found.leaves.len(),
    })
}

/// Whether what is found from old objects is what is found from nothing.
fn finds_the_same(rt: &impl Abort, alloc: Global, old: Objects, new: Objects) -> bool {
    let before = screened(rt, alloc, case_of(rt, alloc, old));
    let whole = screened(rt, alloc, case_of(rt, alloc, new));
    let found = from_old(alloc, &before, case_of(rt, alloc, new), 1000).expect(rt, "no fault");
    are_alike(&found.leaves, &whole.leaves)
}

/// Two that pass each other.
const PASSING: Objects = Objects::Two(Object::AlongY, Object::AlongZ);

#[test]
fn an_object_is_added(rt: HostRuntime) {
    let alloc = rt.alloc();
    let new = Objects::Three(Object::AlongY, Object::AlongZ, Object::Distant);
    assert_eq!(rt;
        found_again(&rt, alloc, PASSING, new, 49, FIRST_TWO),
        Ok(Counts {
            far: 22,
            near: 27,
            all: 49
        })
    );
    assert_eq!(rt;
        found_again(&rt, alloc, PASSING, new, 48, FIRST_TWO),
        Err(AgainError::TooMany)
    );
}

#[test]
fn an_object_is_added_in_front(rt: HostRuntime) {
    let new = Objects::Three(Object::Distant, Object::AlongY, Object::AlongZ);
    assert_eq!(rt;
        found_again(&rt, rt.alloc(), PASSING, new, 49, LAST_TWO),
        Ok(Counts {
            far: 22,
            near: 27,
            all: 49
        })
    );
}

#[test]
fn an_object_is_taken_away(rt: HostRuntime) {
    let new = Objects::One(Object::AlongY);
    assert_eq!(rt;
        found_again(&rt, rt.alloc(), PASSING, new, 0, FIRST_TWO),
        Ok(Counts {
            far: 0,
            near: 0,
            all: 0
        })
    );
}

#[test]
fn an_object_that_passes_comes_to_one_that_has_no_leaves(rt: HostRuntime) {
    let alloc = rt.alloc();
    let old = Objects::One(Object::Resting);
    assert_eq!(rt;
        found_again(&rt, alloc, old, PASSING, 48, FIRST_TWO),
        Err(AgainError::TooMany)
    );
    assert_eq!(rt;
        found_again(&rt, alloc, old, PASSING, 49, FIRST_TWO),
        Ok(Counts {
            far: 22,
            near: 27,
            all: 49
        })
    );
}

/// Objects before, and those that are screened again.
const CHANGES: [(Objects, Objects); 6] = [
    (PASSING, Objects::Two(Object::AlongY, Object::Resting)),
    (PASSING, Objects::Two(Object::AlongZ, Object::AlongY)),
    (PASSING, Objects::Two(Object::Renamed, Object::AlongZ)),
    (
        PASSING,
        Objects::Sized(Object::AlongY, Object::AlongZ, Size::Kilometre),
    ),
    (
        PASSING,
        Objects::Three(Object::AlongZ, Object::AlongY, Object::AlongZ),
    ),
    // An object that stands twice serves two pairs.
    (
        Objects::Three(Object::AlongY, Object::Resting, Object::AlongZ),
        Objects::Three(Object::AlongY, Object::AlongY, Object::AlongZ),
    ),
];

/// The first of these for which what is found again is not what is found from nothing.
fn first_wrong(rt: &impl Abort, alloc: Global) -> Option<usize> {
    for (place, (old, new)) in CHANGES.iter().enumerate() {
        if !finds_the_same(rt, alloc, *old, *new) {
            return Some(place);
        }
    }
    None
}

#[test]
fn whatever_changes_what_is_found_is_what_is_found_from_nothing(rt: HostRuntime) {
    assert_eq!(rt; first_wrong(&rt, rt.alloc()), None);
}
