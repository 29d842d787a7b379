//! The places of box lines: the slots in which each object has a state, in order.
ghost use Rattle.std.specs.Prelude.{◌≡◌, ◌+◌, [], ◌∷◌, IfNone, IfSome};
ghost use Rattle.cj_track.specs.Tracks.{plain_track};
ghost use Rattle.cj_case.specs.Problems.{plain_problem};
ghost use Rattle.cj_checker.specs.Places.{slots_from};

use cj_case::{Problem, SLOT, slot_window};
use cj_hermite::{Hint, run_from};
use cj_track::Track;

/// A slot of an object.
#[derive(Clone, Copy)]
pub(crate) struct Place {
    pub object: u32,
    pub slot: u32,
}

/// The first slot from this one on in which a track has a state. The hint then says where the track is.
pub(crate) fn next_slot(problem: &Problem, track: &Track, slot: u32, hint: &mut Hint) -> Option<u32>
    ensures none { IfNone result (slots_from (plain_problem problem.now) (plain_track track.now) slot ≡ []) }
    ensures same { IfSome result (λ found. slots_from (plain_problem problem.now) (plain_track track.now) slot
        ≡ slots_from (plain_problem problem.now) (plain_track track.now) found) }
    ensures first { IfSome result (λ found. slots_from (plain_problem problem.now) (plain_track track.now) found
        ≡ found ∷ slots_from (plain_problem problem.now) (plain_track track.now) (found + 1)) }
{
    let window = problem.window;
    let ticks = slot_window(window, slot)?;
    let run = run_from(track, ticks.first, window.last, hint)?;
    Some((run.ticks.first.since(window.first) / SLOT) as u32)
}
