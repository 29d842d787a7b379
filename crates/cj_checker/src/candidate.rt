//! Whether a pair is a candidate: it has a primary, its listed shells are not parted, and its boxes in a slot touch.
ghost use Rattle.std.specs.Prelude.{◌≡◌, ◌+◌, ◌<◌, ◌&&◌, pos, ◌+ℤ◌, int_le, map, length, option_map};
ghost use Rattle.cj_case.specs.Pairs.{objects_of};
ghost use Rattle.cj_case.specs.Problems.{plain_problem};
ghost use Rattle.cj_bezier.specs.Shells.{are_kept as not_parted};
ghost use Rattle.cj_bezier.specs.SlotBoxes.{are_touching, both_touch as they_touch};
ghost use Rattle.cj_case.specs.Boxes.{plain_box, plain_boxes};
ghost use Rattle.cj_checker.specs.Keys.{candidate_with, close_with};

use cj_case::{AxisBox, Pair, Problem, Shell};
use cj_cert::ShellLine;

/// Whether a reach on an axis begins at most a threshold behind the end of another.
fn begins_within(least: i64, most: i64, thr: u64) -> bool
    ensures { result ≡ int_le least (most +ℤ pos thr) }
{
    i128::from(least) <= i128::from(most) + i128::from(thr)
}

/// Whether two reaches on an axis are apart by at most a threshold.
fn reach_touches(least: i64, most: i64, other_least: i64, other_most: i64, thr: u64) -> bool
    ensures { result ≡ (int_le least (other_most +ℤ pos thr) && int_le other_least (most +ℤ pos thr)) }
{
    begins_within(least, other_most, thr) && begins_within(other_least, most, thr)
}

/// Whether two boxes are apart by at most a threshold on each axis.
fn boxes_touch(a: &AxisBox, b: &AxisBox, thr: u64) -> bool
    ensures { result ≡ are_touching thr a.now b.now }
{
    reach_touches(a.least.x, a.most.x, b.least.x, b.most.x, thr)
        && reach_touches(a.least.y, a.most.y, b.least.y, b.most.y, thr)
        && reach_touches(a.least.z, a.most.z, b.least.z, b.most.z, thr)
}

/// Whether two objects have boxes that touch.
fn both_touch(a: Option<AxisBox>, b: Option<AxisBox>, thr: u64) -> bool
    ensures { result ≡ they_touch thr (option_map plain_box a) (option_map plain_box b) }
{
    match (a, b) {
        (Some(a), Some(b)) => boxes_touch(&a, &b, thr),
        _ => false,
    }
}

/// Whether two objects have shells that are at most a threshold apart.
fn are_kept(a: Option<Shell>, b: Option<Shell>, thr: u64) -> bool
    ensures { result ≡ not_parted thr a b }
{
    match (a, b) {
        (Some(a), Some(b)) => {
            u128::from(a.lo.max(b.lo)) <= u128::from(a.hi.min(b.hi)) + u128::from(thr)
        }
        _ => false,
    }
}

/// Whether a pair is a candidate, by the listed shells and the boxes of a slot.
pub(crate) fn is_candidate(
    problem: &Problem,
    shells: &[ShellLine],
    boxes: &[Option<AxisBox>],
    pair: Pair,
) -> bool
    requires exists { pair.b < length problem.now.tracks }
    requires shells { length shells.now ≡ length problem.now.tracks }
    requires boxes { length boxes.now ≡ length problem.now.tracks }
    ensures { result ≡ candidate_with (plain_problem problem.now) (map (λ line. line.shell) shells.now) (plain_boxes boxes.now) (objects_of pair) }
{
    problem.primaries.concern(pair) && are_close(problem, shells, boxes, pair)
}

/// Whether the listed shells of a pair are not parted, and its boxes touch.
fn are_close(problem: &Problem, shells: &[ShellLine], boxes: &[Option<AxisBox>], pair: Pair) -> bool
    requires exists { pair.b < length problem.now.tracks }
    requires shells { length shells.now ≡ length problem.now.tracks }
    requires boxes { length boxes.now ≡ length problem.now.tracks }
    ensures { result ≡ close_with (plain_problem problem.now) (map (λ line. line.shell) shells.now) (plain_boxes boxes.now) (objects_of pair) }
{
    let thr = problem.pair_threshold(pair);
    let (a, b) = (pair.a as usize, pair.b as usize);
    are_kept(shells[a].shell, shells[b].shell, thr) && both_touch(boxes[a], boxes[b], thr)
}
