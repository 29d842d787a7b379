//! What is told of all slabs, in one list.
ghost use Rattle.std.specs.Prelude.{◌≡◌, IfOk};
ghost use Rattle.cj_slabs.specs.Slabs.{leaves_listed};

use cj_case::Leaf;
use std::alloc::{AllocError, Global};

/// How many leaves there are in these slabs, as a guess of the room that they take together.
fn room_of(slabs: &[Vec<Leaf>]) -> usize {
    let mut room = 0usize;
    for slab in slabs {
        room = room.saturating_add(slab.len());
    }
    room
}

/// The leaves of these slabs, one slab behind another. Each slab is given up once its leaves are there.
pub fn told_in_one(alloc: Global, slabs: Vec<Vec<Leaf>>) -> Result<Vec<Leaf>, AllocError>
    ensures { IfOk result (λ told. told.items ≡ leaves_listed slabs.items) }
{
    let mut told = Vec::with_capacity(alloc, room_of(&slabs))?;
    for slab in slabs {
        told.extend_from_slice(&slab)?;
    }
    Ok(told)
}
