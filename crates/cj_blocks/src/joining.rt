//! Whether the slots of an object are joined.
ghost use Rattle.std.specs.Prelude.{◌≡◌, ◌^◌, ◌<◌, ◌≤◌, All, length, option_map};
ghost use Rattle.std.specs.List.{list_all, range_with_len};
ghost use Rattle.cj_case.specs.CaseLimits.{MAX_SIZE};
ghost use Rattle.cj_case.specs.Pairs.{objects_of};
ghost use Rattle.cj_bezier.specs.SlotBoxes as touch;
ghost use Rattle.cj_case.specs.Boxes.{plain_box, plain_boxes};
ghost use Rattle.cj_blocks.specs.Blocks as spec;
ghost use Rattle.cj_blocks.specs.Listed.{joined_of};

use crate::block_slots::BlockSlots;
use crate::round_boxes::box_round;
use cj_bezier::box_touches;
use cj_case::{AxisBox, BySlot, Pair, threshold_between};

/// Whether two boxes are there and apart by at most a threshold on each axis.
fn both_touch(a: &Option<AxisBox>, b: &Option<AxisBox>, thr: u64) -> bool
    ensures { result ≡ touch.both_touch thr (option_map plain_box a.now) (option_map plain_box b.now) }
{
    match (a, b) {
        (Some(a), Some(b)) => box_touches(a, b, thr),
        _ => false,
    }
}

/// Whether a box touches another's only where the own box does.
fn touches_only_as(
    round: &Option<AxisBox>,
    own: &Option<AxisBox>,
    other: &Option<AxisBox>,
    thr: u64,
) -> bool
    ensures { result ≡ spec.touches_only_as thr (option_map plain_box round.now) (option_map plain_box own.now) (option_map plain_box other.now) }
{
    !both_touch(round, other, thr) || both_touch(own, other, thr)
}

/// The other object of a pair of an object.
fn partner_of(object: u32, pair: Pair) -> u32
    ensures value { result ≡ spec.partner_of object (objects_of pair) }
    ensures most { result ≤ pair.b }
{
    if pair.a == object { pair.b } else { pair.a }
}

/// Whether in each of these slots a box touches only such current boxes of a partner as the object's own one does. Given are both rows.
fn touches_as_own(
    round: &Option<AxisBox>,
    own: &[Option<AxisBox>],
    other: &[Option<AxisBox>],
    slots: BlockSlots,
    thr: u64,
) -> bool
    requires own { length own.now ≡ slots.all }
    requires other { length other.now ≡ slots.all }
    ensures { result ≡ list_all (λ slot. spec.touches_only_as thr (option_map plain_box round.now)
        (touch.reaches_in (plain_boxes own.now) slot) (touch.reaches_in (plain_boxes other.now) slot)) (range_with_len slots.first slots.count) }
{
    for slot in slots.first..slots.first + slots.count {
        if !touches_only_as(round, &own[slot as usize], &other[slot as usize], thr) {
            return false;
        }
    }
    true
}

/// The box of an object round its boxes in some slots, where it has one in each, and where that box touches, of all partners in its
/// pairs, only such current boxes as the object's own one of the slot does.
pub fn joined_box(
    object: u32,
    pairs: &[Pair],
    slots: BlockSlots,
    boxes: &BySlot<Option<AxisBox>>,
    current: &BySlot<Option<AxisBox>>,
    sizes: &[u64],
    thr: u64,
) -> Option<AxisBox>
    requires exists { object < length sizes.now }
    requires exist { All (λ pair. pair.b < length sizes.now) pairs.now }
    requires all { length boxes.now.rows ≡ length sizes.now }
    requires wide { boxes.now.slots ≡ slots.all }
    requires same { length current.now.rows ≡ length sizes.now }
    requires same_wide { current.now.slots ≡ slots.all }
    requires small { All (λ size. size ≤ MAX_SIZE) sizes.now }
    requires most { thr ≤ 10 ^ 15 }
    ensures { option_map plain_box result ≡ joined_of (record { pairs = pairs.now; slots = slots.all; boxes = boxes.now.rows; current = current.now.rows; sizes = sizes.now; threshold = thr })
        object slots.first slots.count }
{
    let own = boxes.of_object(object);
    let round = Some(box_round(own, slots)?);
    for pair in pairs {
        let between = threshold_between(sizes, thr, *pair);
        let other = current.of_object(partner_of(object, *pair));
        if !touches_as_own(&round, own, other, slots, between) {
            return None;
        }
    }
    round
}
