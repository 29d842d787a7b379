//! The smallest box round several.
ghost use Rattle.std.specs.Prelude.{◌≡◌, length, map, option_map};
ghost use Rattle.std.specs.Int.{int_min, int_max};
ghost use Rattle.std.specs.List.{range_with_len};
ghost use Rattle.cj_bezier.specs.SlotBoxes as slot_boxes;
ghost use Rattle.cj_case.specs.Boxes.{plain_box, plain_boxes};
ghost use Rattle.cj_blocks.specs.BoxRows as spec;

use crate::block_slots::BlockSlots;
use cj_case::AxisBox;
use cj_track::Vec3;

/// On each axis the lesser of two places.
fn least_corner(a: Vec3, b: Vec3) -> Vec3
    ensures x { result.x ≡ int_min a.x b.x }
    ensures y { result.y ≡ int_min a.y b.y }
    ensures z { result.z ≡ int_min a.z b.z }
{
    Vec3 {
        x: a.x.min(b.x),
        y: a.y.min(b.y),
        z: a.z.min(b.z),
    }
}

/// On each axis the greater of two places.
fn most_corner(a: Vec3, b: Vec3) -> Vec3
    ensures x { result.x ≡ int_max a.x b.x }
    ensures y { result.y ≡ int_max a.y b.y }
    ensures z { result.z ≡ int_max a.z b.z }
{
    Vec3 {
        x: a.x.max(b.x),
        y: a.y.max(b.y),
        z: a.z.max(b.z),
    }
}

/// The smallest box round two.
fn round_two(a: AxisBox, b: AxisBox) -> AxisBox
    ensures { plain_box result ≡ slot_boxes.round_two (plain_box a) (plain_box b) }
{
    AxisBox {
        least: least_corner(a.least, b.least),
        most: most_corner(a.most, b.most),
    }
}

/// The smallest box round those of an object in some slots, if it has one in each. Given is its row.
pub fn box_round(row: &[Option<AxisBox>], slots: BlockSlots) -> Option<AxisBox>
    requires { length row.now ≡ slots.all }
    ensures { option_map plain_box result ≡ spec.round_all (map (slot_boxes.reaches_in (plain_boxes row.now)) (range_with_len slots.first slots.count)) }
{
    let mut round = row[slots.first as usize]?;
    for slot in slots.first + 1..slots.first + slots.count {
        round = round_two(round, row[slot as usize]?);
    }
    Some(round)
}
