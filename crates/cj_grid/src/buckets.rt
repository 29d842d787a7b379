//! The buckets that a box meets: cubes with a side of 2,000 km, whose corners are multiples of the side.
ghost use Rattle.std.specs.Prelude.{◌≡◌, ◌+◌, ◌*◌, ◌^◌, ◌<◌, ◌≤◌, ℤ, pos, negsuc, ◌+ℤ◌, ◌-ℤ◌, ◌≤ℤ◌, length, option_map};
ghost use Rattle.cj_case.specs.CaseLimits.{MAX_SIZE};
ghost use Rattle.cj_case.specs.Boxes.{Reach};
ghost use Rattle.cj_grid.specs.Among.{block_among};
ghost use Rattle.cj_grid.specs.Buckets.{bucket_on, numbers_of, numbers_in, plain_block, block_of, is_long, is_wide};

use crate::bucket_ranges::{BucketRange, BucketSpan};
use crate::slot_objects::SlotObjects;
use cj_case::AxisBox;

/// The side of a bucket is so many units of 2^16 nm, so that one division of 64 bits finds it.
const UNITS_IN_SIDE: u64 = 30_517_578_125;

/// How far below 0 the first bucket of an axis begins in nm.
const FIRST_CORNER: i128 = 9_226_000_000_000_000_000;

/// The number of the bucket on an axis in which a coordinate lies.
fn bucket_at(at: i128) -> u64
    requires low { negsuc 9_225_999_999_999_999_999 ≤ℤ at }
    requires high { at ≤ℤ pos 9_226_000_000_000_000_000 }
    ensures value { result ≡ bucket_on at }
    ensures few { result < 16_384 }
{
    let units = ((at + FIRST_CORNER) as u128 / 65_536) as u64;
    units / UNITS_IN_SIDE
}

/// The first bucket that is met from a box that begins there, moved back by so much.
fn first_bucket(least: i64, back: u64) -> u64
    requires { back ≤ 2 * 10 ^ 15 }
    ensures value { result ≡ bucket_on (least -ℤ pos back) }
    ensures few { result < 16_384 }
{
    bucket_at(i128::from(least) - i128::from(back))
}

/// The last bucket that is met from a box that ends there, moved on by so much.
fn last_bucket(most: i64, on: u64) -> u64
    requires { on ≤ 2 * 10 ^ 15 }
    ensures value { result ≡ bucket_on (most +ℤ pos on) }
    ensures few { result < 16_384 }
{
    bucket_at(i128::from(most) + i128::from(on))
}

/// The buckets that are met on an axis from the box of an object of this size, within a threshold.
fn buckets_on(least: i64, most: i64, thr: u64, size: u64) -> BucketRange
    requires thr { thr ≤ 10 ^ 15 }
    requires size { size ≤ MAX_SIZE }
    ensures { numbers_in result ≡ numbers_of thr size (record { least = least; most = most }) }
{
    BucketRange {
        first: first_bucket(least, thr + size),
        last: last_bucket(most, size),
    }
}

/// The buckets that the box of an object of this size meets within a threshold.
fn block_of_box(area: &AxisBox, thr: u64, size: u64) -> BucketSpan
    requires thr { thr ≤ 10 ^ 15 }
    requires size { size ≤ MAX_SIZE }
    ensures { plain_block result ≡ block_of thr size area.now }
{
    BucketSpan {
        x: buckets_on(area.least.x, area.most.x, thr, size),
        y: buckets_on(area.least.y, area.most.y, thr, size),
        z: buckets_on(area.least.z, area.most.z, thr, size),
    }
}

/// The buckets that the box of an object meets, where it has one.
pub fn block_of_object(objects: &SlotObjects<'_>, object: u32) -> Option<BucketSpan>
    requires { object < length objects.now.boxes.now }
    ensures { option_map plain_block result ≡ block_among objects.now object }
{
    match &objects.boxes[object as usize] {
        Some(area) => Some(block_of_box(area, objects.thr, objects.sizes[object as usize])),
        None => None,
    }
}

/// Whether more than four buckets are met on an axis.
fn is_long_range(range: BucketRange) -> bool
    ensures { result ≡ is_long (numbers_in range) }
{
    range.first + 3 < range.last
}

/// Whether more than four buckets are met on some axis.
pub fn is_wide_block(block: &BucketSpan) -> bool
    ensures { result ≡ is_wide (plain_block block.now) }
{
    is_long_range(block.x) || is_long_range(block.y) || is_long_range(block.z)
}
