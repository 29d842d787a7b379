//! Objects in the buckets that their boxes meet.
ghost use Rattle.std.specs.Prelude.{◌≡◌, ◌<◌, ◌++◌, option_map, IfOk, OnOk};
ghost use Rattle.cj_grid.specs.Among.{entries_among, wide_among};
ghost use Rattle.cj_grid.specs.Sweeps.{is_narrow_one, narrow_among};
ghost use Rattle.cj_grid.specs.Buckets.{bucket_number, numbers_in, plain_block, in_column, in_layer, in_block, entered_by, is_wide_one};

use crate::bucket_ranges::{BucketRange, BucketSpan};
use crate::buckets::{block_of_object, is_wide_block};
use crate::slot_objects::SlotObjects;
use std::alloc::{AllocError, Global};

/// That an object is entered in a bucket.
#[derive(Clone, Copy, Debug, PartialEq, Eq, PartialOrd, Ord)]
pub struct Entry {
    pub bucket: u64,
    pub object: u32,
}

/// One number for a bucket, by its numbers on the axes.
fn number_of(x: u64, y: u64, z: u64) -> u64
    requires x { x < 16_384 }
    requires y { y < 16_384 }
    requires z { z < 16_384 }
    ensures { result ≡ bucket_number x y z }
{
    (x * 16_384 + y) * 16_384 + z
}

/// Enters an object in the buckets of a column.
fn append_column(
    object: u32,
    x: u64,
    y: u64,
    zs: BucketRange,
    entries: &mut Vec<Entry>,
) -> Result<(), AllocError>
    requires x { x < 16_384 }
    requires y { y < 16_384 }
    ensures { OnOk result (entries.new.items ≡ entries.old.items ++ in_column object x y (numbers_in zs)) }
{
    for z in zs.first..zs.last + 1 {
        entries.push(Entry {
            bucket: number_of(x, y, z),
            object,
        })?;
    }
    Ok(())
}

/// Enters an object in the buckets of a layer.
fn append_layer(
    object: u32,
    x: u64,
    ys: BucketRange,
    zs: BucketRange,
    entries: &mut Vec<Entry>,
) -> Result<(), AllocError>
    requires x { x < 16_384 }
    ensures { OnOk result (entries.new.items ≡ entries.old.items ++ in_layer object x (numbers_in ys) (numbers_in zs)) }
{
    for y in ys.first..ys.last + 1 {
        append_column(object, x, y, zs, entries)?;
    }
    Ok(())
}

/// Enters an object in the buckets of a block.
fn append_block(object: u32, block: &BucketSpan, entries: &mut Vec<Entry>) -> Result<(), AllocError>
    ensures { OnOk result (entries.new.items ≡ entries.old.items ++ in_block object (plain_block block.now)) }
{
    for x in block.x.first..block.x.last + 1 {
        append_layer(object, x, block.y, block.z, entries)?;
    }
    Ok(())
}

/// Enters an object with a box that is not wide in all buckets that this meets.
fn append_object(
    object: u32,
    block: Option<BucketSpan>,
    entries: &mut Vec<Entry>,
) -> Result<(), AllocError>
    ensures { OnOk result (entries.new.items ≡ entries.old.items ++ entered_by object (option_map plain_block block)) }
{
    match block {
        Some(block) => {
            if is_wide_block(&block) {
                Ok(())
            } else {
                append_block(object, &block, entries)
            }
        }
        None => Ok(()),
    }
}

/// Enters all objects, each in the buckets that its box meets.
pub fn enter_objects(alloc: Global, objects: &SlotObjects<'_>) -> Result<Vec<Entry>, AllocError>
    ensures { IfOk result (λ entries. entries.items ≡ entries_among objects.now) }
{
    let mut entries = Vec::with_capacity(alloc, 2 * objects.boxes.len())?;
    for object in 0..objects.boxes.len() as u32 {
        let block = block_of_object(objects, object);
        append_object(object, block, &mut entries)?;
    }
    Ok(entries)
}

/// Whether an object with a box that meets these buckets has a wide one.
fn has_wide_box(block: Option<BucketSpan>) -> bool
    ensures { result ≡ is_wide_one (option_map plain_block block) }
{
    match block {
        Some(block) => is_wide_block(&block),
        None => false,
    }
}

/// The objects with wide boxes.
pub fn wide_objects(alloc: Global, objects: &SlotObjects<'_>) -> Result<Vec<u32>, AllocError>
    ensures { IfOk result (λ wide. wide.items ≡ wide_among objects.now) }
{
    let mut wide = Vec::new(alloc);
    for object in 0..objects.boxes.len() as u32 {
        if has_wide_box(block_of_object(objects, object)) {
            wide.push(object)?;
        }
    }
    Ok(wide)
}

/// Whether an object with a box that meets these buckets has one that is not wide.
fn has_narrow_box(block: Option<BucketSpan>) -> bool
    ensures { result ≡ is_narrow_one (option_map plain_block block) }
{
    match block {
        Some(block) => !is_wide_block(&block),
        None => false,
    }
}

/// The objects with boxes that are not wide.
pub fn narrow_objects(alloc: Global, objects: &SlotObjects<'_>) -> Result<Vec<u32>, AllocError>
    ensures { IfOk result (λ narrow. narrow.items ≡ narrow_among objects.now) }
{
    let mut narrow = Vec::new(alloc);
    for object in 0..objects.boxes.len() as u32 {
        if has_narrow_box(block_of_object(objects, object)) {
            narrow.push(object)?;
        }
    }
    Ok(narrow)
}
