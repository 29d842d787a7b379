//! The boxes of all objects in one slot.
ghost use Rattle.std.specs.Prelude.{◌≡◌, ◌<◌, IfOk};
ghost use Rattle.cj_case.specs.Problems.{plain_problem};
ghost use Rattle.cj_case.specs.Boxes.{plain_boxes};
ghost use Rattle.cj_bezier.specs.Candidates.{boxes_in};

use crate::ground::Ground;
use cj_case::AxisBox;
use std::alloc::{AllocError, Global};

/// Of the boxes of all objects those in a slot.
pub fn boxes_in_slot(
    alloc: Global,
    ground: &Ground<'_, '_>,
    slot: u32,
) -> Result<Vec<Option<AxisBox>>, AllocError>
    requires { slot < ground.now.slots }
    ensures { IfOk result (λ here. plain_boxes here.items ≡ boxes_in (plain_problem ground.now.problem.now) slot) }
{
    let boxes = &ground.measured.boxes;
    let mut here = Vec::with_capacity(alloc, boxes.objects())?;
    boxes.in_slot(slot, &mut here)?;
    Ok(here)
}
