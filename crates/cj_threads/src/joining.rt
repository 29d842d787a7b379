//! Lists put behind one another.
ghost use Rattle.std.specs.Prelude.{◌++◌, flat_map, All, IfOk, IsTrue};
ghost use Rattle.std.specs.List.Sorted.{IsPermutation};
ghost use Rattle.cj_case.specs.PairOrder.{AreInOrderBy};

use crate::placed::Placed;
use crate::sorting::put_in_order;
use std::alloc::{AllocError, Global};

/// Whether a list goes on where another has ended.
fn goes_on<T: Placed>(front: &[T], back: &[T]) -> bool
    ensures { IsTrue result → AreInOrderBy T.place_of front.now → AreInOrderBy T.place_of back.now → AreInOrderBy T.place_of (front.now ++ back.now) }
{
    let Some(last) = front.last() else {
        return true;
    };
    let Some(first) = back.first() else {
        return true;
    };
    last.place() <= first.place()
}

/// So many elements: lists that are each in order, put behind one another, each given up once its elements are there. They are sorted only where
/// one list does not go on where those before it have ended.
pub fn put_together<T: Placed + Copy>(
    alloc: Global,
    lists: Vec<Vec<T>>,
    count: usize,
) -> Result<Vec<T>, AllocError>
    requires ordered { All (λ list. AreInOrderBy T.place_of list.items) lists.items }
    ensures elements { IfOk result (λ all. IsPermutation (flat_map (λ list. list.items) lists.items) all.items) }
    ensures ordered { IfOk result (λ all. AreInOrderBy T.place_of all.items) }
{
    let mut all = Vec::with_capacity(alloc, count)?;
    let mut in_order = true;
    for list in lists {
        in_order &= goes_on(&all, &list);
        all.extend_from_slice(&list)?;
    }
    if in_order {
        return Ok(all);
    }
    put_in_order(&mut all)?;
    Ok(all)
}
