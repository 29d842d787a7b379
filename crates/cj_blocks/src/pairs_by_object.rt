//! The kept pairs of each object.
ghost use Rattle.std.specs.Prelude.{◌≡◌, ℕ, ◌<◌, ◌==◌, ◌++◌, [], ◌∷◌, All, map, filter, vec_len, if◌then◌else◌, IfOk, OnOk};
ghost use Rattle.cj_case.specs.Pairs.{objects_of};
ghost use Rattle.cj_blocks.specs.Blocks.{is_pair_of};
ghost use Rattle.cj_blocks.specs.PairsByObject.{pairs_at};

use cj_case::Pair;
use std::alloc::{AllocError, Global};

/// As many empty lists as there are objects.
fn empty_lists(alloc: Global, objects: u32) -> Result<Vec<Vec<Pair>>, AllocError>
    ensures count { IfOk result (λ lists. vec_len lists ≡ objects) }
    ensures empty { IfOk result (λ lists. (object : ℕ) → pairs_at (map (λ list. list.items) lists.items) object ≡ []) }
{
    let mut lists = Vec::with_capacity(alloc, objects as usize)?;
    for _ in 0..objects {
        lists.push(Vec::new(alloc))?;
    }
    Ok(lists)
}

/// Enters a pair in the list of an object.
fn enter(lists: &mut Vec<Vec<Pair>>, object: u32, pair: Pair) -> Result<(), AllocError>
    requires exists { object < vec_len lists.old }
    ensures count { OnOk result (vec_len lists.new ≡ vec_len lists.old) }
    ensures lists { OnOk result ((k : ℕ) → pairs_at (map (λ list. list.items) lists.new.items) k
        ≡ (if k == object then pairs_at (map (λ list. list.items) lists.old.items) k ++ pair ∷ [] else pairs_at (map (λ list. list.items) lists.old.items) k)) }
{
    lists[object as usize].push(pair)?;
    Ok(())
}

/// For each of so many objects the pairs that it is in, in their order.
pub fn pairs_by_object(
    alloc: Global,
    pairs: &[Pair],
    objects: u32,
) -> Result<Vec<Vec<Pair>>, AllocError>
    requires exist { All (λ pair. pair.b < objects) pairs.now }
    ensures count { IfOk result (λ lists. vec_len lists ≡ objects) }
    ensures value { IfOk result (λ lists. (object : ℕ) → object < objects
        → map objects_of (pairs_at (map (λ list. list.items) lists.items) object) ≡ filter (is_pair_of object) (map objects_of pairs.now)) }
{
    let mut lists = empty_lists(alloc, objects)?;
    for pair in pairs {
        enter(&mut lists, pair.a, *pair)?;
        enter(&mut lists, pair.b, *pair)?;
    }
    Ok(lists)
}
