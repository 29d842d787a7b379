//! The pairs that are not unchanged.
ghost use Rattle.std.specs.Prelude.{◌≡◌, ◌+◌, ◌-◌, ◌<◌, ◌≤◌, ◌++◌, filter, length, map, not, IfOk, OnOk};
ghost use Rattle.std.specs.List.{range_with_len};
ghost use Rattle.cj_case.specs.Pairs.{objects_of, pairs_of};
ghost use Rattle.cj_case.specs.Problems.{plain_problem};
ghost use Rattle.cj_case.specs.Unchanged.{is_unchanged};

use crate::matching::Matching;
use cj_case::Pair;
use std::alloc::{AllocError, Global};

/// Appends those pairs of a new object with objects of higher numbers that are not unchanged.
fn append_row(matching: &Matching<'_>, a: u32, pairs: &mut Vec<Pair>) -> Result<(), AllocError>
    requires { a < length matching.now.new.now.tracks }
    ensures { OnOk result (map objects_of pairs.new.items ≡ map objects_of pairs.old.items
        ++ filter (λ pair. not (is_unchanged (plain_problem matching.now.old.now) (plain_problem matching.now.new.now) pair))
        (map (λ b. (a, b)) (range_with_len (a + 1) (length matching.now.new.now.tracks - (a + 1))))) }
{
    for b in a + 1..matching.objects() {
        let pair = Pair { a, b };
        if !matching.is_unchanged(pair) {
            pairs.push(pair)?;
        }
    }
    Ok(())
}

/// The pairs of a new problem that are not unchanged, in order.
pub fn changed_pairs(alloc: Global, matching: &Matching<'_>) -> Result<Vec<Pair>, AllocError>
    ensures { IfOk result (λ pairs. map objects_of pairs.items
        ≡ filter (λ pair. not (is_unchanged (plain_problem matching.now.old.now) (plain_problem matching.now.new.now) pair))
        (pairs_of (length (plain_problem matching.now.new.now).tracks))) }
{
    let mut pairs = Vec::new(alloc);
    for a in 0..matching.objects() {
        append_row(matching, a, &mut pairs)?;
    }
    Ok(pairs)
}
