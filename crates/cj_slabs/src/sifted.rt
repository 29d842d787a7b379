ghost use Rattle.std.specs.Prelude.{◌≡◌, []};

use crate::leaf_counts::LeafCounts;
use cj_case::Leaf;
use std::alloc::Global;

/// What is found of a problem, slab by slab.
#[derive(Debug, Drop)]
pub struct Sifted {
    /// The leaves of the roots that are not far throughout: a list for each slab, in order of slot, pair and time.
    pub slabs: Vec<Vec<Leaf>>,
    /// How many candidates there are, summed over all slots.
    pub touching: u64,
    /// How many leaves there are, also of the roots that are far throughout.
    pub counts: LeafCounts,
}

impl Sifted {
    /// What is found in no slot.
    pub(crate) fn empty(alloc: Global) -> Sifted
        ensures slabs { result.slabs.items ≡ [] }
        ensures touching { result.touching ≡ 0 }
        ensures counts { result.counts.leaves ≡ 0 }
    {
        Sifted {
            slabs: Vec::new(alloc),
            touching: 0,
            counts: LeafCounts::NONE,
        }
    }
}
