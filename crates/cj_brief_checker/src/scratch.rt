ghost use Rattle.std.specs.Prelude.{◌≡◌, IfOk};

use crate::cuts::Cuts;
use cj_case::Problem;
use cj_hermite::Hints;
use std::alloc::{AllocError, Global};

/// What is kept of each object from one of its roots in a slot for the next one.
#[derive(Drop)]
pub(crate) struct Scratch<'p> {
    pub hints: Hints,
    pub cuts: Cuts<'p>,
}

impl<'p> Scratch<'p> {
    /// Nothing yet, of a problem.
    pub(crate) fn new(alloc: Global, problem: &'p Problem) -> Result<Self, AllocError>
        ensures { IfOk result (λ scratch. scratch.cuts ≡ problem.now) }
    {
        let objects = problem.tracks.as_slice().len();
        Ok(Scratch {
            hints: Hints::new(alloc, objects)?,
            cuts: Cuts::new(alloc, problem)?,
        })
    }
}
