//! Ranges of buckets.
ghost use Rattle.std.specs.Prelude.{◌<◌};

/// The numbers of the buckets that are met on an axis, from the first to the last, counted from one that lies below all that is reached.
#[derive(Clone, Copy, Debug)]
pub struct BucketRange {
    pub first: u64,
    pub last: u64,
    pub ghost first_few: { first < 16_384 },
    pub ghost last_few: { last < 16_384 },
}

/// The buckets that a box meets, by their numbers on each axis.
#[derive(Clone, Copy, Debug)]
pub struct BucketSpan {
    pub x: BucketRange,
    pub y: BucketRange,
    pub z: BucketRange,
}
