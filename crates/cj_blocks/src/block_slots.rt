ghost use Rattle.std.specs.Prelude.{◌≡◌, ◌+◌, ◌<◌, ◌≤◌};
ghost use Rattle.cj_blocks.specs.Blocks.{block_count, first_slot, slots_in};

/// How many slots a block has where the window does not end before.
pub const BLOCK: u32 = 4;

/// The slots of a block: so many from a first one on, among all those of a window.
#[derive(Clone, Copy)]
pub struct BlockSlots {
    pub all: u32,
    pub first: u32,
    pub count: u32,
    pub ghost some: { 0 < count },
    pub ghost within: { first + count ≤ all },
}

impl BlockSlots {
    /// The slots of a block by its number.
    pub fn new(all: u32, block: u32) -> Self
        requires { block < block_count all }
        ensures all { result.all ≡ all }
        ensures first { result.first ≡ first_slot block }
        ensures count { result.count ≡ slots_in all block }
    {
        let first = BLOCK * block;
        BlockSlots {
            all,
            first,
            count: BLOCK.min(all - first),
        }
    }
}
