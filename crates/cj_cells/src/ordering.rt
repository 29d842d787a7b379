//! Roots in order of pair and time.
ghost use Rattle.std.specs.Prelude.{◌≡◌, ℕ, ◌≤◌, Bool, length, vec_len, AllPairs};
ghost use Rattle.std.specs.List.{range_with_len};
ghost use Rattle.std.specs.List.Sorted.{IsPermutation};
ghost use Rattle.cj_base.specs.Bounds.{MOST_LEAVES};
ghost use Rattle.cj_case.specs.PlainProblems.{PlainProblem};
ghost use Rattle.cj_case.specs.Cells.{IsRootUpTo};
ghost use Rattle.cj_hermite.specs.Roots.{roots_of, roots_by_slot};
ghost use Rattle.cj_case.specs.Cells.{plain_cells};
ghost use Rattle.cj_cells.specs.Cells.{root_numbers};

use cj_case::Cell;

/// Sorts roots by pair and first tick. They come as runs in order, which a stable sort merges; it wants memory, and does without
/// where there is none.
fn sort(roots: &mut Vec<Cell>)
    ensures permutation { IsPermutation (plain_cells roots.old.items) (plain_cells roots.new.items) }
    ensures ordered { AllPairs IsRootUpTo (plain_cells roots.new.items) }
    ensures len { vec_len roots.new ≡ vec_len roots.old }
{
    match roots.sort_by_key(|cell| (cell.pair, cell.first)) {
        Ok(()) => (),
        Err(_) => roots.sort_unstable_by_key(|cell| (cell.pair, cell.first)),
    }
}

/// Gives each root its place as its number.
fn number(roots: &mut [Cell])
    requires { length roots.old ≤ MOST_LEAVES }
    ensures kept { plain_cells roots.new ≡ plain_cells roots.old }
    ensures numbered { root_numbers roots.new ≡ range_with_len 0 (length roots.new) }
{
    for (at, root) in roots.iter_mut().enumerate() {
        root.root = at as u32;
    }
}

/// Gives each of the roots, which are in order of pair and tick, its place as its number.
pub fn number_roots(roots: &mut Vec<Cell>)
    requires few { vec_len roots.old ≤ MOST_LEAVES }
    requires ordered { AllPairs IsRootUpTo (plain_cells roots.old.items) }

    ensures kept { plain_cells roots.new.items ≡ plain_cells roots.old.items }
    ensures numbered { root_numbers roots.new.items ≡ range_with_len 0 (vec_len roots.new) }

    // The roots that were found slot by slot, in whatever order they came, are then all roots in order.
    ensures all { (candidate : ℕ → ℕ → ℕ → Bool) (case : PlainProblem) → IsPermutation (roots_by_slot candidate case) (plain_cells roots.old.items) → plain_cells roots.new.items ≡ roots_of candidate case }
{
    number(roots);
}

/// Puts roots in order of pair and tick, and gives each its place as its number.
pub fn order_roots(roots: &mut Vec<Cell>)
    requires { vec_len roots.old ≤ MOST_LEAVES }

    ensures permutation { IsPermutation (plain_cells roots.old.items) (plain_cells roots.new.items) }
    ensures ordered { AllPairs IsRootUpTo (plain_cells roots.new.items) }
    ensures numbered { root_numbers roots.new.items ≡ range_with_len 0 (vec_len roots.new) }

    // The roots that were found slot by slot, in whatever order they came, are then all roots in order.
    ensures all { (candidate : ℕ → ℕ → ℕ → Bool) (case : PlainProblem) → IsPermutation (roots_by_slot candidate case) (plain_cells roots.old.items) → plain_cells roots.new.items ≡ roots_of candidate case }
{
    sort(roots);
    number_roots(roots);
}
