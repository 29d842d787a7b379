//! How many keys are held at a time, and which of them.
ghost use Rattle.std.specs.Prelude.{◌≡◌, ℕ, ◌<◌, ◌≤◌, Bool, filter, nat_lt};
ghost use Rattle.cj_checker.specs.Keys.{AreKeysIn, HasKey};

use crate::keys::Key;

/// How many keys are enough in any case. Three times as many and those of one slot, which may be found more than once, are fewer than 16,777,216.
const MOST_ENOUGH: usize = 4_000_000;

/// How many keys are enough: as many as lines of cells are left, since with one more key with a root some line fails; and at least
/// as many as one object can have, so that there are few rounds where keys have no root. Any number would do.
pub(crate) fn enough_keys(lines: usize, places: usize) -> usize {
    lines.max(places).min(MOST_ENOUGH)
}

/// How many keys lie in the rows before one. Any number would do.
fn count_before(row: u32, keys: &[Key]) -> usize {
    let mut count = 0usize;
    for key in keys {
        if u32::from(key.a) < row {
            count = count.saturating_add(1);
        }
    }
    count
}

/// The end of the first rows that have enough keys, or of all rows where these have not.
fn end_of_enough(first: u32, end: u32, enough: usize, keys: &[Key]) -> u32
    requires { first < end }
    ensures some { first < result }
    ensures within { result ≤ end }
{
    let mut few = first;
    let mut end = end;
    while few + 1 < end {
        let middle = few + (end - few) / 2;
        if enough < count_before(middle, keys) {
            end = middle;
        } else {
            few = middle;
        }
    }
    end
}

/// Leaves the keys of the rows before one.
fn leave_before(row: u32, keys: &mut Vec<Key>)
    ensures { keys.new.items ≡ filter (λ key. nat_lt key.a row) keys.old.items }
{
    keys.retain(|key| u32::from(key.a) < row);
}

/// Leaves of the keys of some rows those of the first rows that have enough, where they are far more; and gives the end of the rows
/// whose keys are left.
pub(crate) fn leave_enough(first: u32, end: u32, enough: usize, keys: &mut Vec<Key>) -> u32
    requires { first < end }
    ensures some { first < result }
    ensures within { result ≤ end }
    ensures keys { (candidate : ℕ → ℕ → ℕ → Bool) (objects slots : ℕ) → AreKeysIn candidate first end objects slots keys.old.items
        → AreKeysIn candidate first result objects slots keys.new.items }
    ensures kept { (a b slot : ℕ) → a < result → HasKey keys.old.items a b slot → HasKey keys.new.items a b slot }
{
    if keys.len() / 3 <= enough {
        return end;
    }
    let row = end_of_enough(first, end, enough, keys);
    leave_before(row, keys);
    row
}
