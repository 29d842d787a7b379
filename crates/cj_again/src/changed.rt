//! The roots of the pairs that are not unchanged.
ghost use Rattle.std.specs.Prelude.{◌≡◌, ◌<◌, ◌≤◌, filter, length, not, vec_len, All, AllPairs, IfOk};
ghost use Rattle.std.specs.List.{range_with_len};
ghost use Rattle.cj_base.specs.Bounds.{MOST_LEAVES};
ghost use Rattle.cj_bezier.specs.Candidates.{is_candidate, is_candidate_anew};
ghost use Rattle.cj_case.specs.Cells.{plain_cells};
ghost use Rattle.cj_case.specs.Problems.{plain_problem};
ghost use Rattle.cj_case.specs.Unchanged.{is_unchanged};
ghost use Rattle.cj_cells.specs.Cells.{root_numbers};
ghost use Rattle.cj_hermite.specs.Roots.{roots_of};

use crate::matching::Matching;
use cj_case::Cell;
use cj_cells::number_roots;
use std::alloc::{AllocError, Global};

/// Of some roots those whose pairs are not unchanged, in the same order.
fn select(alloc: Global, matching: &Matching<'_>, roots: &[Cell]) -> Result<Vec<Cell>, AllocError>
    requires { All (λ root. root.pair.b < length matching.now.new.now.tracks) roots.now }
    ensures { IfOk result (λ some. plain_cells some.items
        ≡ filter (λ root. not (is_unchanged (plain_problem matching.now.old.now) (plain_problem matching.now.new.now) (root.a, root.b))) (plain_cells roots.now)) }
{
    let mut some = Vec::new(alloc);
    for root in roots {
        if !matching.is_unchanged(root.pair) {
            some.push(*root)?;
        }
    }
    Ok(some)
}

/// Of all roots of a new problem those whose pairs are not unchanged, each with its place as its number.
pub fn changed_roots(
    alloc: Global,
    matching: &Matching<'_>,
    roots: &[Cell],
) -> Result<Vec<Cell>, AllocError>
    requires few { length roots.now ≤ MOST_LEAVES }
    requires all { plain_cells roots.now ≡ roots_of (is_candidate (plain_problem matching.now.new.now)) (plain_problem matching.now.new.now) }

    ensures value { IfOk result (λ some. plain_cells some.items
        ≡ roots_of (is_candidate_anew (plain_problem matching.now.old.now) (plain_problem matching.now.new.now)) (plain_problem matching.now.new.now)) }
    ensures numbered { IfOk result (λ some. root_numbers some.items ≡ range_with_len 0 (vec_len some)) }
    ensures fewer { IfOk result (λ some. vec_len some ≤ length roots.now) }
{
    let mut some = select(alloc, matching, roots)?;
    number_roots(&mut some);
    Ok(some)
}
