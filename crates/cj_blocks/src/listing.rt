//! What is listed of the objects.
ghost use Rattle.std.specs.Prelude.{◌≡◌, ℕ, ◌^◌, ◌<◌, ◌≤◌, ◌++◌, All, length, map, IfOk, OnOk};
ghost use Rattle.std.specs.List.{filter_map, flat_map, range_with_len};
ghost use Rattle.cj_case.specs.CaseLimits.{MAX_SIZE};
ghost use Rattle.cj_case.specs.Boxes.{plain_boxes};
ghost use Rattle.cj_bezier.specs.SlotBoxes.{reaches_in};
ghost use Rattle.cj_blocks.specs.Blocks.{TouchAsGiven, block_count, blocks_of, single_in};
ghost use Rattle.cj_blocks.specs.Listed.{IsFilled, IsTreated, block_of, given, joined_of, listed_of, plain_block};

use crate::block::Block;
use crate::block_slots::{BLOCK, BlockSlots};
use crate::joining::joined_box;
use crate::pairs_by_object::pairs_by_object;
use cj_case::{AxisBox, BySlot, Pair};
use std::alloc::{AllocError, Global};

/// Appends each box of an object in some slots by itself. Given is its row.
fn append_singles(
    row: &[Option<AxisBox>],
    object: u32,
    slots: BlockSlots,
    blocks: &mut Vec<Block>,
) -> Result<(), AllocError>
    requires { length row.now ≡ slots.all }
    ensures { OnOk result (map plain_block blocks.new.items ≡ map plain_block blocks.old.items
        ++ filter_map (single_in (λ _. reaches_in (plain_boxes row.now)) object) (range_with_len slots.first slots.count)) }
{
    for slot in slots.first..slots.first + slots.count {
        if let Some(area) = row[slot as usize] {
            blocks.push(Block {
                object,
                first: slot,
                last: slot,
                area,
            })?;
        }
    }
    Ok(())
}

/// Appends what is listed of an object in the slots of a block, which then are the current boxes there.
fn list_block(
    object: u32,
    pairs: &[Pair],
    slots: BlockSlots,
    boxes: &BySlot<Option<AxisBox>>,
    sizes: &[u64],
    thr: u64,
    current: &mut BySlot<Option<AxisBox>>,
    blocks: &mut Vec<Block>,
) -> Result<(), AllocError>
    requires exists { object < length sizes.now }
    requires exist { All (λ pair. pair.b < length sizes.now) pairs.now }
    requires all { length boxes.now.rows ≡ length sizes.now }
    requires wide { boxes.now.slots ≡ slots.all }
    requires same { length current.old.rows ≡ length sizes.now }
    requires same_wide { current.old.slots ≡ slots.all }
    requires small { All (λ size. size ≤ MAX_SIZE) sizes.now }
    requires most { thr ≤ 10 ^ 15 }
    ensures objects { OnOk result (length current.new.rows ≡ length current.old.rows) }
    ensures slots { OnOk result (current.new.slots ≡ current.old.slots) }
    ensures current { OnOk result (IsFilled slots.all object slots.first slots.count (joined_of (record {
      pairs = pairs.now;
      slots = slots.all;
      boxes = boxes.now.rows;
      current = current.old.rows;
      sizes = sizes.now;
      threshold = thr;
    }) object slots.first slots.count) current.old.rows current.new.rows) }
    ensures blocks { OnOk result (map plain_block blocks.new.items ≡ map plain_block blocks.old.items ++ listed_of (record {
      pairs = pairs.now;
      slots = slots.all;
      boxes = boxes.now.rows;
      current = current.old.rows;
      sizes = sizes.now;
      threshold = thr;
    }) object slots.first slots.count) }
{
    match joined_box(object, pairs, slots, boxes, current, sizes, thr) {
        Some(area) => {
            blocks.push(Block {
                object,
                first: slots.first,
                last: slots.first + slots.count - 1,
                area,
            })?;
            current.fill(object, slots.first, slots.count, Some(area));
        }
        None => append_singles(boxes.of_object(object), object, slots, blocks)?,
    }
    Ok(())
}

/// Appends what is listed of an object, which then are its current boxes.
fn list_object(
    object: u32,
    pairs: &[Pair],
    boxes: &BySlot<Option<AxisBox>>,
    sizes: &[u64],
    thr: u64,
    current: &mut BySlot<Option<AxisBox>>,
    blocks: &mut Vec<Block>,
) -> Result<(), AllocError>
    requires exists { object < length sizes.now }
    requires exist { All (λ pair. pair.b < length sizes.now) pairs.now }
    requires all { length boxes.now.rows ≡ length sizes.now }
    requires same { length current.old.rows ≡ length sizes.now }
    requires same_wide { current.old.slots ≡ boxes.now.slots }
    requires small { All (λ size. size ≤ MAX_SIZE) sizes.now }
    requires most { thr ≤ 10 ^ 15 }
    ensures objects { OnOk result (length current.new.rows ≡ length current.old.rows) }
    ensures slots { OnOk result (current.new.slots ≡ current.old.slots) }
    ensures current { OnOk result (IsTreated (record {
      pairs = pairs.now;
      slots = boxes.now.slots;
      boxes = boxes.now.rows;
      current = current.old.rows;
      sizes = sizes.now;
      threshold = thr;
    }) object current.new.rows) }
    ensures blocks { OnOk result (map plain_block blocks.new.items ≡ map plain_block blocks.old.items ++ flat_map (block_of (record {
      pairs = pairs.now;
      slots = boxes.now.slots;
      boxes = boxes.now.rows;
      current = current.old.rows;
      sizes = sizes.now;
      threshold = thr;
    }) object) (range_with_len 0 (block_count boxes.now.slots))) }
{
    let slots = boxes.slots();
    for block in 0..slots.div_ceil(BLOCK) {
        list_block(
            object,
            pairs,
            BlockSlots::new(slots, block),
            boxes,
            sizes,
            thr,
            current,
            blocks,
        )?;
    }
    Ok(())
}

/// The boxes of objects by slots with fewer lines. Given are the box of each object in each slot, the pairs that are kept, the sizes of the
/// objects and a threshold, both in nm. Objects are treated in order, and of each the blocks of four slots on end. Where an object has a box
/// in each slot of a block, and one box round all of them touches, by the threshold between two objects of a kept pair, only such current
/// boxes of its partners as the given box of the slot does, the block is listed as that one box. Every other box is listed by itself. The
/// current boxes of an object are its listed ones once it was treated, and its given ones before. The only error is want of memory.
pub fn blocks(
    alloc: Global,
    kept: &[Pair],
    objects: u32,
    boxes: &BySlot<Option<AxisBox>>,
    sizes: &[u64],
    thr: u64,
) -> Result<Vec<Block>, AllocError>
    requires exist { All (λ pair. pair.b < objects) kept.now }
    requires all { length boxes.now.rows ≡ objects }
    requires sized { length sizes.now ≡ objects }
    requires small { All (λ size. size ≤ MAX_SIZE) sizes.now }
    requires most { thr ≤ 10 ^ 15 }

    ensures value { IfOk result (λ found. map plain_block found.items ≡ blocks_of (given kept.now objects boxes.now.slots boxes.now.rows sizes.now thr)) }

    // In every slot the listed boxes of a kept pair touch exactly where the given ones do.
    ensures touch { IfOk result (λ found. TouchAsGiven (given kept.now objects boxes.now.slots boxes.now.rows sizes.now thr) (map plain_block found.items)) }
{
    let lists = pairs_by_object(alloc, kept, objects)?;
    let mut current = boxes.copied(alloc)?;
    let mut found = Vec::new(alloc);
    for object in 0..objects {
        list_object(
            object,
            &lists[object as usize],
            boxes,
            sizes,
            thr,
            &mut current,
            &mut found,
        )?;
    }
    Ok(found)
}
