ghost use Rattle.std.specs.Prelude.{◌≡◌, IfOk};

use crate::closing::Cuts;
use cj_case::{Cell, Leaf, Problem};
use cj_hermite::Hints;
use std::alloc::{AllocError, Global};

/// Lists that are filled and emptied again, so that their memory is asked for once, and hints and a cut for each object.
#[derive(Drop)]
pub struct Scratch<'p> {
    pub hints: Hints,
    pub roots: Vec<Cell>,
    pub leaves: Vec<Leaf>,
    pub cuts: Cuts<'p>,
}

impl<'p> Scratch<'p> {
    /// Empty lists for a problem.
    pub fn new(alloc: Global, problem: &'p Problem) -> Result<Self, AllocError>
        ensures { IfOk result (λ scratch. scratch.cuts ≡ problem.now) }
    {
        Ok(Scratch {
            hints: Hints::new(alloc, problem.tracks.as_slice().len())?,
            roots: Vec::new(alloc),
            leaves: Vec::new(alloc),
            cuts: Cuts::new(alloc, problem)?,
        })
    }
}
