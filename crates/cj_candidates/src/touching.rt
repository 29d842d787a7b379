//! Of pairs those whose boxes touch.
ghost use Rattle.std.specs.Prelude.{◌≡◌, ℕ, ◌^◌, ◌<◌, ◌≤◌, length, map, filter, All, IfOk};
ghost use Rattle.cj_base.specs.Bounds.{MOST_OBJECTS};
ghost use Rattle.cj_bezier.specs.SlotBoxes.{touch_between};
ghost use Rattle.cj_candidates.specs.SoughtPairs.{ArePairsOf, is_listed};
ghost use Rattle.cj_case.specs.Boxes.{plain_boxes};
ghost use Rattle.cj_case.specs.CaseLimits.{MAX_SIZE};
ghost use Rattle.cj_case.specs.Pairs.{objects_of};

use cj_bezier::box_touches;
use cj_case::{AxisBox, Pair, threshold_between};
use cj_grid::find_touching;
use std::alloc::{AllocError, Global};

/// Whether the boxes of a pair are apart by at most a threshold in nm between objects of these sizes on each axis.
fn pair_touches(pair: Pair, boxes: &[Option<AxisBox>], sizes: &[u64], thr: u64) -> bool
    requires exists { pair.b < length boxes.now }
    requires sized { length sizes.now ≡ length boxes.now }
    requires small { All (λ size. size ≤ MAX_SIZE) sizes.now }
    requires most { thr ≤ 10 ^ 15 }
    ensures { result ≡ touch_between thr sizes.now (plain_boxes boxes.now) (objects_of pair) }
{
    let between = threshold_between(sizes, thr, pair);
    match (&boxes[pair.a as usize], &boxes[pair.b as usize]) {
        (Some(a), Some(b)) => box_touches(a, b, between),
        _ => false,
    }
}

/// Of some pairs those whose boxes touch, in the same order: each pair is looked at.
fn touching_one_by_one(
    alloc: Global,
    pairs: &[Pair],
    boxes: &[Option<AxisBox>],
    sizes: &[u64],
    thr: u64,
) -> Result<Vec<Pair>, AllocError>
    requires exist { All (λ pair. pair.b < length boxes.now) pairs.now }
    requires sized { length sizes.now ≡ length boxes.now }
    requires small { All (λ size. size ≤ MAX_SIZE) sizes.now }
    requires most { thr ≤ 10 ^ 15 }
    ensures { IfOk result (λ some. map objects_of some.items ≡ filter (touch_between thr sizes.now (plain_boxes boxes.now)) (map objects_of pairs.now)) }
{
    let mut some = Vec::new(alloc);
    for pair in pairs {
        if pair_touches(*pair, boxes, sizes, thr) {
            some.push(*pair)?;
        }
    }
    Ok(some)
}

/// Whether a pair is one of a list, which is in order.
fn is_in_list(list: &[Pair], pair: Pair) -> bool
    requires { (n : ℕ) × ArePairsOf n (map objects_of list.now) }
    ensures { result ≡ is_listed (map objects_of list.now) (objects_of pair) }
{
    list.binary_search(&pair).is_ok()
}

/// Of some pairs those that are in a list, which is in order.
fn in_list(alloc: Global, pairs: &[Pair], list: &[Pair]) -> Result<Vec<Pair>, AllocError>
    requires { (n : ℕ) × ArePairsOf n (map objects_of list.now) }
    ensures { IfOk result (λ some. map objects_of some.items ≡ filter (is_listed (map objects_of list.now)) (map objects_of pairs.now)) }
{
    let mut some = Vec::new(alloc);
    for pair in pairs {
        if is_in_list(list, *pair) {
            some.push(*pair)?;
        }
    }
    Ok(some)
}

/// A list of so many pairs for each object is short.
const SHORT: usize = 64;

/// Of these pairs, which are in order, those whose boxes are apart by at most a threshold in nm between objects of these sizes on each axis. Where they
/// are many, all pairs that touch are found first.
pub fn touching_of(
    alloc: Global,
    pairs: &[Pair],
    boxes: &[Option<AxisBox>],
    sizes: &[u64],
    thr: u64,
) -> Result<Vec<Pair>, AllocError>
    requires pairs { ArePairsOf (length boxes.now) (map objects_of pairs.now) }
    requires few { length boxes.now ≤ MOST_OBJECTS }
    requires sized { length sizes.now ≡ length boxes.now }
    requires small { All (λ size. size ≤ MAX_SIZE) sizes.now }
    requires least { 10 ^ 9 ≤ thr }
    requires most { thr ≤ 10 ^ 15 }
    ensures { IfOk result (λ some. map objects_of some.items ≡ filter (touch_between thr sizes.now (plain_boxes boxes.now)) (map objects_of pairs.now)) }
{
    if pairs.len() / SHORT <= boxes.len() {
        return touching_one_by_one(alloc, pairs, boxes, sizes, thr);
    }
    let touching = find_touching(alloc, boxes, sizes, thr)?;
    in_list(alloc, &touching, pairs)
}
