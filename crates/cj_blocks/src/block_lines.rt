//! The lines of boxes in a certificate of version 2: one for each block of slots.
ghost use Rattle.std.specs.Prelude.{◌≡◌, ◌<◌, All, length, map, IfOk};
ghost use Rattle.cj_case.specs.Pairs.{objects_of};
ghost use Rattle.cj_case.specs.Problems.{plain_problem};
ghost use Rattle.cj_case.specs.Slots as slots;
ghost use Rattle.cj_case.specs.Boxes.{plain_rows};
ghost use Rattle.cj_blocks.specs.Blocks.{blocks_of};
ghost use Rattle.cj_blocks.specs.Listed.{plain_block};
ghost use Rattle.cj_cert.specs.Certificates.{plain_box_line};
ghost use Rattle.cj_blocks.specs.Rewritten.{given_of, line_of_block};

use crate::block::Block;
use crate::listing::blocks;
use cj_case::{AxisBox, BySlot, Pair, Problem};
use cj_cert::BoxLine;
use std::alloc::{AllocError, Global};

/// A line for each block.
fn lines_of(alloc: Global, found: &[Block]) -> Result<Vec<BoxLine>, AllocError>
    ensures { IfOk result (λ lines. map plain_box_line lines.items ≡ map line_of_block (map plain_block found.now)) }
{
    let mut lines = Vec::with_capacity(alloc, found.len())?;
    for block in found {
        lines.push(BoxLine {
            object: block.object,
            first: block.first,
            last: block.last,
            area: block.area,
        })?;
    }
    Ok(lines)
}

/// The lines of the blocks over boxes of a problem's objects in each slot, and pairs that are kept.
pub fn block_lines(
    alloc: Global,
    problem: &Problem,
    boxes: &BySlot<Option<AxisBox>>,
    kept: &[Pair],
) -> Result<Vec<BoxLine>, AllocError>
    requires exist { All (λ pair. pair.b < length problem.now.tracks) kept.now }
    requires all { length boxes.now.rows ≡ length problem.now.tracks }
    requires wide { boxes.now.slots ≡ slots.slot_count problem.now.window.first.micros problem.now.window.last.micros }
    ensures { IfOk result (λ lines. map plain_box_line lines.items
        ≡ map line_of_block (blocks_of (given_of (plain_problem problem.now) (plain_rows boxes.now.rows) (map objects_of kept.now)))) }
{
    let objects = problem.tracks.as_slice().len() as u32;
    let sizes = problem.sizes.as_slice();
    let found = blocks(alloc, kept, objects, boxes, sizes, problem.threshold)?;
    lines_of(alloc, &found)
}
