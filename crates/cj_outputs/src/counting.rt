//! What the summary of a problem counts.
ghost use Rattle.std.specs.Prelude.{◌≡◌, ◌≤◌, filter, length, map, not, count_by};
ghost use Rattle.cj_base.specs.Bounds.{MOST_OBJECTS};
ghost use Rattle.cj_candidates.specs.Counts.{candidate_count};
ghost use Rattle.cj_case.specs.Pairs.{pairs_of};
ghost use Rattle.cj_case.specs.Primaries.{has_primary, marks_of};
ghost use Rattle.cj_case.specs.Problems.{plain_problem};
ghost use Rattle.cj_cells.specs.Lists.{list_candidates};
ghost use Rattle.cj_report.specs.Counts.{tally_of};
ghost use Rattle.cj_slabs.specs.Counts.{AreCounts};
ghost use Rattle.cj_outputs.specs.Messages.{has_message};
ghost use Rattle.cj_outputs.specs.Outcome.{encounters_in};
ghost use Rattle.cj_outputs.specs.Summaries as spec;

use cj_case::{Primaries, Problem};
use cj_report::Counts;
use cj_slabs::LeafCounts;

/// What is counted while a problem is searched.
#[derive(Clone, Copy, Debug)]
pub struct SearchCounts {
    /// How many pairs are kept.
    pub kept: u64,
    /// How many candidates there are, summed over the slots.
    pub touching: u64,
    /// How many roots they have, and how many leaves these.
    pub leaves: LeafCounts,
}

/// What the summary of a problem counts, where each of its encounters has a message or not.
pub fn count(problem: &Problem, counted: SearchCounts, messages: &[bool]) -> Counts
    requires kept { counted.kept ≡ spec.kept_count (plain_problem problem.now) }
    requires touching { counted.touching ≡ candidate_count (plain_problem problem.now) }
    requires leaves { AreCounts (plain_problem problem.now) counted.leaves }
    requires messages { messages.now ≡ map (has_message (plain_problem problem.now)) (encounters_in (plain_problem problem.now)) }
    ensures { tally_of result ≡ spec.tally_with (plain_problem problem.now) (list_candidates (plain_problem problem.now)) }
{
    let objects = problem.tracks.as_slice().len() as u64;
    let pairs = pairs(objects, &problem.primaries);
    let leaves = counted.leaves;
    Counts {
        objects,
        pairs,
        parted: pairs - counted.kept,
        touching: counted.touching,
        roots: leaves.roots,
        splits: leaves.leaves - leaves.roots,
        leaves: leaves.leaves,
        far: leaves.far,
        near: leaves.near,
        undecided: leaves.undecided,
        encounters: messages.len() as u64,
        messages: count_set(messages),
    }
}

/// How many pairs of so many objects have a primary: all but those of two secondaries.
fn pairs(objects: u64, primaries: &Primaries) -> u64
    requires few { objects ≤ MOST_OBJECTS }
    requires marked { marks_of primaries.now objects ≡ objects }
    ensures { result ≡ length (filter (has_primary primaries.now) (pairs_of objects)) }
{
    pairs_of_many(objects) - pairs_of_many(secondaries(primaries))
}

/// How many objects are no primaries.
fn secondaries(primaries: &Primaries) -> u64
    ensures { result ≡ spec.secondary_count primaries.now }
{
    match primaries.marks() {
        Some(marks) => count_unset(marks),
        None => 0,
    }
}

/// How many pairs there are of so many objects.
fn pairs_of_many(objects: u64) -> u64
    requires { objects ≤ MOST_OBJECTS }
    ensures { result ≡ length (pairs_of objects) }
{
    objects * objects.saturating_sub(1) / 2
}

/// How many of these are true.
fn count_set(flags: &[bool]) -> u64
    ensures { result ≡ count_by (λ flag. flag) flags.now }
{
    let mut count = 0;
    for flag in flags {
        if *flag {
            count += 1;
        }
    }
    count
}

/// How many of these are false.
fn count_unset(flags: &[bool]) -> u64
    ensures { result ≡ count_by not flags.now }
{
    let mut count = 0;
    for flag in flags {
        if !*flag {
            count += 1;
        }
    }
    count
}
