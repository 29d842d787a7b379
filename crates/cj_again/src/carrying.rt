//! The leaves of unchanged pairs, under their new numbers, together with those of the others.
ghost use Rattle.std.specs.Prelude.{◌≡◌, ◌+◌, ◌<◌, ◌≤◌, ◌++◌, length, map, vec_len, IfOk, OnOk, IsErrOf};
ghost use Rattle.cj_case.specs.Leaves.{plain_leaves};
ghost use Rattle.cj_case.specs.Pairs.{objects_of};
ghost use Rattle.cj_case.specs.Problems.{plain_problem};
ghost use Rattle.cj_bezier.specs.Candidates.{is_candidate, is_candidate_anew};
ghost use Rattle.cj_cells.specs.Lists.{list_candidates, list_of};
ghost use Rattle.cj_again.specs.PairLeaves.{leaves_of_object, leaves_of_pair, renamed};

use crate::appending::append_as;
use crate::matching::Matching;
use crate::rows::of_pair;
use crate::sources::Sources;
use cj_case::{Leaf, Pair};
use cj_cells::RefineError;
use std::alloc::Global;

/// The leaves of a pair of new objects, perhaps under other numbers.
fn known<'s>(sources: &Sources<'s>, pair: Pair) -> &'s [Leaf]
    requires { pair.b < length sources.now.matching.now.new.now.tracks }
    ensures { map (renamed (objects_of pair)) (plain_leaves result.now)
        ≡ leaves_of_pair (is_candidate (plain_problem sources.now.matching.now.new.now)) (plain_problem sources.now.matching.now.new.now) (objects_of pair) }
{
    match sources.matching.old_pair(pair) {
        Some(before) => of_pair(sources.old, before),
        None => of_pair(sources.anew, pair),
    }
}

/// Appends the leaves of a pair of new objects.
fn append_pair(
    sources: &Sources<'_>,
    pair: Pair,
    limit: u64,
    leaves: &mut Vec<Leaf>,
) -> Result<(), RefineError>
    requires exists { pair.b < length sources.now.matching.now.new.now.tracks }
    requires room { vec_len leaves.old ≤ limit }
    ensures ok { OnOk result (plain_leaves leaves.new.items ≡ plain_leaves leaves.old.items
        ++ leaves_of_pair (is_candidate (plain_problem sources.now.matching.now.new.now)) (plain_problem sources.now.matching.now.new.now) (objects_of pair)) }
    ensures within { OnOk result (vec_len leaves.new ≤ limit) }
    ensures too_many { IsErrOf result RefineError.TooMany → limit < vec_len leaves.old
        + length (leaves_of_pair (is_candidate (plain_problem sources.now.matching.now.new.now)) (plain_problem sources.now.matching.now.new.now) (objects_of pair)) }
{
    append_as(pair, known(sources, pair), limit, leaves)
}

/// Appends the leaves of a new object with those of higher numbers.
fn append_row(
    sources: &Sources<'_>,
    a: u32,
    limit: u64,
    leaves: &mut Vec<Leaf>,
) -> Result<(), RefineError>
    requires exists { a < length sources.now.matching.now.new.now.tracks }
    requires room { vec_len leaves.old ≤ limit }
    ensures ok { OnOk result (plain_leaves leaves.new.items ≡ plain_leaves leaves.old.items
        ++ leaves_of_object (is_candidate (plain_problem sources.now.matching.now.new.now)) (plain_problem sources.now.matching.now.new.now) a) }
    ensures within { OnOk result (vec_len leaves.new ≤ limit) }
    ensures too_many { IsErrOf result RefineError.TooMany → limit < vec_len leaves.old
        + length (leaves_of_object (is_candidate (plain_problem sources.now.matching.now.new.now)) (plain_problem sources.now.matching.now.new.now) a) }
{
    for b in a + 1..sources.matching.objects() {
        append_pair(sources, Pair { a, b }, limit, leaves)?;
    }
    Ok(())
}

/// The leaves of all pairs of new objects, in order.
fn all_rows(alloc: Global, sources: &Sources<'_>, limit: u64) -> Result<Vec<Leaf>, RefineError>
    ensures value { IfOk result (λ leaves. plain_leaves leaves.items ≡ list_candidates (plain_problem sources.now.matching.now.new.now)) }
    ensures within { IfOk result (λ leaves. vec_len leaves ≤ limit) }
    ensures too_many { IsErrOf result RefineError.TooMany → limit < length (list_candidates (plain_problem sources.now.matching.now.new.now)) }
{
    let mut leaves = Vec::new(alloc);
    for a in 0..sources.matching.objects() {
        append_row(sources, a, limit, &mut leaves)?;
    }
    Ok(leaves)
}

/// The leaves of a new problem that has the window and the threshold of an old one, at most so many: those of unchanged pairs from the old list,
/// under their new numbers, and all others from the list of the pairs that are not unchanged. What comes from the old list keeps the numbers of its roots.
pub fn carried(
    alloc: Global,
    matching: &Matching<'_>,
    old: &[Leaf],
    anew: &[Leaf],
    limit: u64,
) -> Result<Vec<Leaf>, RefineError>
    requires first { matching.now.new.now.window.first.micros ≡ matching.now.old.now.window.first.micros }
    requires last { matching.now.new.now.window.last.micros ≡ matching.now.old.now.window.last.micros }
    requires threshold { matching.now.new.now.threshold ≡ matching.now.old.now.threshold }
    requires old { plain_leaves old.now ≡ list_candidates (plain_problem matching.now.old.now) }
    requires anew { plain_leaves anew.now
        ≡ list_of (is_candidate_anew (plain_problem matching.now.old.now) (plain_problem matching.now.new.now)) (plain_problem matching.now.new.now) }

    ensures value { IfOk result (λ leaves. plain_leaves leaves.items ≡ list_candidates (plain_problem matching.now.new.now)) }
    ensures within { IfOk result (λ leaves. vec_len leaves ≤ limit) }
    ensures too_many { IsErrOf result RefineError.TooMany → limit < length (list_candidates (plain_problem matching.now.new.now)) }
{
    let sources = Sources {
        matching,
        old,
        anew,
    };
    all_rows(alloc, &sources, limit)
}
