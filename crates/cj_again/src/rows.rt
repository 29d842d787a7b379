//! Of leaves in order those of one object, and of one pair.
ghost use Rattle.std.specs.Prelude.{◌≡◌};
ghost use Rattle.cj_case.specs.Leaves.{plain_leaves};
ghost use Rattle.cj_case.specs.Pairs.{objects_of};
ghost use Rattle.cj_again.specs.PairLeaves.{AreByPair, AreBySecond, with_first, with_pair, with_second};

use cj_case::{Leaf, Pair};

/// Those with this first object.
fn row_of(leaves: &[Leaf], object: u32) -> &[Leaf]
    requires { AreByPair (plain_leaves leaves.now) }
    ensures value { plain_leaves result.now ≡ with_first object (plain_leaves leaves.now) }
    ensures ordered { AreBySecond (plain_leaves result.now) }
{
    let start = leaves.partition_point(|leaf| leaf.cell.pair.a < object);
    let behind = &leaves[start..];
    let count = behind.partition_point(|leaf| leaf.cell.pair.a <= object);
    &behind[..count]
}

/// Of those with one first object the ones with this second object.
fn part_of(row: &[Leaf], object: u32) -> &[Leaf]
    requires { AreBySecond (plain_leaves row.now) }
    ensures { plain_leaves result.now ≡ with_second object (plain_leaves row.now) }
{
    let start = row.partition_point(|leaf| leaf.cell.pair.b < object);
    let behind = &row[start..];
    let count = behind.partition_point(|leaf| leaf.cell.pair.b <= object);
    &behind[..count]
}

/// Those of a pair.
pub fn of_pair(leaves: &[Leaf], pair: Pair) -> &[Leaf]
    requires { AreByPair (plain_leaves leaves.now) }
    ensures { plain_leaves result.now ≡ with_pair (objects_of pair) (plain_leaves leaves.now) }
{
    part_of(row_of(leaves, pair.a), pair.b)
}
