//! The boxes that a certificate lists, by object and slot.
ghost use Rattle.std.specs.Prelude.{◌≡◌, ◌<◌, ◌≤◌, map, length, IfOk};
ghost use Rattle.std.specs.List.{range_with_len};
ghost use Rattle.cj_case.specs.Boxes.{plain_rows};
ghost use Rattle.cj_case.specs.Tables.{IsEven};
ghost use Rattle.cj_cert.specs.Certificates.{plain_box_line};
ghost use Rattle.cj_cert.specs.Listed.{box_listed};
ghost use Rattle.cj_blocks.specs.Entered.{IsEntered};

use cj_case::{AxisBox, BySlot};
use cj_cert::BoxLine;
use std::alloc::{AllocError, Global};

/// Enters the box of a line in each of its slots, in place of what stands there.
fn enter_line(boxes: &mut BySlot<Option<AxisBox>>, line: &BoxLine)
    ensures objects { length boxes.new.rows ≡ length boxes.old.rows }
    ensures slots { boxes.new.slots ≡ boxes.old.slots }
    ensures even { IsEven boxes.new }
    ensures boxes { IsEntered line.now boxes.old boxes.new }
{
    let end = boxes.slots().min(line.last.saturating_add(1));
    if line.object as usize >= boxes.objects() || end <= line.first {
        return;
    }
    boxes.fill(line.object, line.first, end - line.first, Some(line.area));
}

/// The box that is listed for each of so many objects in each of so many slots. It is that of the first line that tells of it: lines are
/// entered from the last to the first.
pub fn listed_boxes(
    alloc: Global,
    lines: &[BoxLine],
    objects: u32,
    slots: u32,
) -> Result<BySlot<Option<AxisBox>>, AllocError>
    ensures objects { IfOk result (λ boxes. length boxes.rows ≡ objects) }
    ensures slots { IfOk result (λ boxes. boxes.slots ≡ slots) }
    ensures value { IfOk result (λ boxes. plain_rows boxes.rows
        ≡ map (λ object. map (λ slot. box_listed (map plain_box_line lines.now) slot object) (range_with_len 0 slots)) (range_with_len 0 objects)) }
{
    let mut boxes = BySlot::of_one(alloc, objects, slots, None)?;
    let mut left = lines.len();
    while 0 < left {
        left -= 1;
        enter_line(&mut boxes, &lines[left]);
    }
    Ok(boxes)
}
