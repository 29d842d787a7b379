ghost use Rattle.std.specs.Prelude.{◌≡◌, []};

use crate::leaf_counts::LeafCounts;
use cj_case::Leaf;
use std::alloc::Global;

/// What is found in some slots.
#[derive(Drop)]
pub struct Slab {
    /// The leaves of the roots that are not far throughout, slot by slot, in each slot in order of pair and time.
    pub told: Vec<Leaf>,
    /// How many candidates there are, summed over the slots, or the greatest number that there is.
    pub touching: u64,
    /// How many leaves there are, also of the other roots.
    pub counts: LeafCounts,
}

impl Slab {
    /// What is found in no slot.
    pub fn empty(alloc: Global) -> Slab
        ensures told { result.told.items ≡ [] }
        ensures touching { result.touching ≡ 0 }
        ensures counts { result.counts.leaves ≡ 0 }
    {
        Slab {
            told: Vec::new(alloc),
            touching: 0,
            counts: LeafCounts::NONE,
        }
    }
}

/// What has come of some slots.
#[derive(Drop)]
pub enum Outcome {
    /// All of them are searched.
    Whole(Slab),
    /// All of them are searched: there are so many leaves, and so many of them are told, which are not kept.
    Counted { leaves: u64, told: u64 },
    /// The search was stopped when so many leaves were found: that many there are at least.
    Stopped { leaves: u64 },
}
