//! Lists put in order.
ghost use Rattle.std.specs.Prelude.{OnOk};
ghost use Rattle.std.specs.List.Sorted.{IsPermutation};
ghost use Rattle.cj_case.specs.PairOrder.{AreInOrderBy};

use crate::placed::Placed;
use std::alloc::AllocError;

/// Puts a list in order of pair and first tick.
pub fn put_in_order<T: Placed>(all: &mut Vec<T>) -> Result<(), AllocError>
    ensures elements { IsPermutation all.old.items all.new.items }
    ensures ordered { OnOk result (AreInOrderBy T.place_of all.new.items) }
{
    all.sort_by_key(|item: &T| item.place())?;
    Ok(())
}
