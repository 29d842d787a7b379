//! What a thread that searches alone finds, slot by slot.
ghost use Rattle.std.specs.Prelude.{◌≡◌, ℕ, ◌+◌, ◌<◌, ◌≤◌, ◌++◌, List, [], length, IfErr, IfOk, IsErrOf};
ghost use Rattle.cj_base.specs.Bounds.{MOST_LEAVES};
ghost use Rattle.cj_case.specs.PlainProblems.{PlainProblem};
ghost use Rattle.cj_bezier.specs.RootLeaves.{leaves_of_roots};
ghost use Rattle.cj_slabs.specs.Slabs.{AreSlabsOf, AreSoFar, IsOutcome, IsSlabOf, IsWithinOrOver, leaves_listed, leaves_so_far, roots_at};

use crate::joining::{join, leaves_at_least};
use crate::leaf_limits::LeafLimits;
use crate::sift_error::SiftError;
use crate::sifted::Sifted;
use crate::slab::{Outcome, Slab};
use std::alloc::Global;

/// What is found in the slots so far.
#[derive(Drop)]
pub enum SoFar {
    /// What is told is kept, and so many leaves more may be told.
    Kept { found: Sifted, room: u64 },
    /// More leaves are told than may be, so they are given up: there are so many leaves, told or not.
    Given { leaves: u64 },
}

impl SoFar {
    /// What is found in no slot.
    pub fn empty(alloc: Global, limits: LeafLimits) -> SoFar
        ensures found { (case : PlainProblem) → AreSoFar limits case [] result }
        ensures leaves { leaves_so_far result ≡ 0 }
    {
        SoFar::Kept {
            found: Sifted::empty(alloc),
            room: limits.told,
        }
    }

    /// How many leaves there are.
    fn leaves(&self) -> u64
        ensures { result ≡ leaves_so_far self.now }
    {
        match self {
            SoFar::Kept { found, .. } => found.counts.leaves,
            SoFar::Given { leaves } => *leaves,
        }
    }

    /// With what is found in the slots that follow.
    pub fn with(self, next: Outcome, limits: LeafLimits) -> Result<SoFar, SiftError>
        requires limit { limits.leaves ≤ MOST_LEAVES }
        requires next { IsWithinOrOver limits next }
        ensures found { (case : PlainProblem) (some more : List ℕ) → AreSoFar limits case some self → IsOutcome case more next
            → IfOk result (AreSoFar limits case (some ++ more)) }
        ensures within { IfOk result (λ all. leaves_so_far all ≤ limits.leaves) }
        ensures too_many { (case : PlainProblem) (some more : List ℕ) → AreSoFar limits case some self → IsOutcome case more next
            → IsErrOf result SiftError.TooMany → limits.leaves < length (leaves_of_roots case (roots_at case (some ++ more))) }
        ensures none_told { IsErrOf result SiftError.TooManyTold → ⊥ }
    {
        let leaves = self.leaves().saturating_add(leaves_at_least(&next));
        if leaves > limits.leaves {
            return Err(SiftError::TooMany);
        }
        match self {
            SoFar::Given { .. } => Ok(SoFar::Given { leaves }),
            SoFar::Kept { found, room } => match next {
                Outcome::Whole(slab) => keep(found, room, slab),
                Outcome::Counted { .. } => Ok(SoFar::Given { leaves }),
                Outcome::Stopped { .. } => Ok(SoFar::Given { leaves }),
            },
        }
    }
}

/// One slab more, whose leaves are given up with all others where more are told than there is room for.
fn keep(mut found: Sifted, room: u64, slab: Slab) -> Result<SoFar, SiftError>
    requires { found.counts.leaves + slab.counts.leaves ≤ u64.MAX }
    ensures found { (limits : LeafLimits) (case : PlainProblem) (some more : List ℕ) → AreSlabsOf case some found
        → room + length (leaves_listed found.slabs.items) ≡ limits.told → IsSlabOf case more slab → IfOk result (AreSoFar limits case (some ++ more)) }
    ensures leaves { IfOk result (λ all. leaves_so_far all ≡ found.counts.leaves + slab.counts.leaves) }
    ensures memory { IfErr result (λ e. e ≡ SiftError.Memory) }
{
    let told = slab.told.len() as u64;
    if told > room {
        return Ok(SoFar::Given {
            leaves: found.counts.leaves + slab.counts.leaves,
        });
    }
    join(&mut found, slab)?;
    Ok(SoFar::Kept {
        found,
        room: room - told,
    })
}
