//! Leaves that are appended as those of a pair.
ghost use Rattle.std.specs.Prelude.{◌≡◌, ◌+◌, ◌<◌, ◌≤◌, ◌++◌, length, map, vec_len, OnOk, IsErrOf};
ghost use Rattle.cj_case.specs.Leaves.{plain_leaves};
ghost use Rattle.cj_case.specs.Pairs.{objects_of};
ghost use Rattle.cj_again.specs.PairLeaves.{renamed};

use cj_case::{Cell, Leaf, Pair};
use cj_cells::RefineError;

/// Appends leaves as those of a pair, where there are at most so many.
pub fn append_as(
    pair: Pair,
    part: &[Leaf],
    limit: u64,
    leaves: &mut Vec<Leaf>,
) -> Result<(), RefineError>
    requires { vec_len leaves.old ≤ limit }
    ensures ok { OnOk result (plain_leaves leaves.new.items ≡ plain_leaves leaves.old.items ++ map (renamed (objects_of pair)) (plain_leaves part.now)) }
    ensures within { OnOk result (vec_len leaves.new ≤ limit) }
    ensures too_many { IsErrOf result RefineError.TooMany → limit < vec_len leaves.old + length part.now }
{
    for leaf in part {
        if leaves.len() as u64 >= limit {
            return Err(RefineError::TooMany);
        }
        leaves.push(Leaf {
            cell: Cell {
                pair,
                root: leaf.cell.root,
                first: leaf.cell.first,
                last: leaf.cell.last,
            },
            kind: leaf.kind,
        })?;
    }
    Ok(())
}
