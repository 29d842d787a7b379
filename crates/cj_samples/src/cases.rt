//! Cases of two tracks.
ghost use Rattle.std.specs.Prelude.{◌≡◌, ◌≤◌, [], ◌∷◌, length, IfOk};
ghost use Rattle.cj_track.specs.Segments.{node_count};
ghost use Rattle.cj_track.specs.Tracks.{plain_track};
ghost use Rattle.cj_case.specs.CaseLimits.{MAX_SIZE};
ghost use Rattle.cj_case.specs.Problems.{plain_problem};
ghost use Rattle.cj_case.specs.Slots.{slot_count};
ghost use Rattle.cj_samples.specs.Scenes.{case_of, path_along_y, path_along_z, resting_at};

use crate::passing::{along_y, along_z};
use crate::segments::{AT_7000, AT_7005, rest};
use crate::ticks::seconds;
use crate::tracks::track_of;
use cj_case::{Primaries, Problem, Sizes, Tracks};
use cj_track::Track;
use std::alloc::{AllocError, Global};

/// Two tracks of objects of these sizes, in nm.
pub fn sized(
    alloc: Global,
    a: Track,
    b: Track,
    size_a: u64,
    size_b: u64,
) -> Result<Problem, AllocError>
    requires frame { a.frame ≡ b.frame }
    requires few_of_a { node_count a.segments ≤ 4 }
    requires few_of_b { node_count b.segments ≤ 4 }
    requires small_a { size_a ≤ MAX_SIZE }
    requires small_b { size_b ≤ MAX_SIZE }
    ensures tracks { IfOk result (λ problem. length problem.tracks ≡ 2) }
    ensures slots { IfOk result (λ problem. slot_count problem.window.first.micros problem.window.last.micros ≡ 2) }
    ensures threshold { IfOk result (λ problem. problem.threshold ≡ 5000000000000) }
    ensures sizes { IfOk result (λ problem. problem.sizes ≡ size_a ∷ size_b ∷ []) }
    ensures value { IfOk result (λ problem. plain_problem problem ≡ case_of (plain_track a) (plain_track b) size_a size_b) }
{
    Ok(Problem {
        tracks: Tracks::new(vec![in alloc; a, b]?),
        window: seconds(0, 60),
        threshold: 5_000_000_000_000,
        sizes: Sizes::new(vec![in alloc; size_a, size_b]?),
        primaries: Primaries::all(),
    })
}

/// Two tracks of points.
pub fn problem_of(alloc: Global, a: Track, b: Track) -> Result<Problem, AllocError>
    requires frame { a.frame ≡ b.frame }
    requires few_of_a { node_count a.segments ≤ 4 }
    requires few_of_b { node_count b.segments ≤ 4 }
    ensures tracks { IfOk result (λ problem. length problem.tracks ≡ 2) }
    ensures slots { IfOk result (λ problem. slot_count problem.window.first.micros problem.window.last.micros ≡ 2) }
    ensures threshold { IfOk result (λ problem. problem.threshold ≡ 5000000000000) }
    ensures sizes { IfOk result (λ problem. problem.sizes ≡ 0 ∷ 0 ∷ []) }
    ensures value { IfOk result (λ problem. plain_problem problem ≡ case_of (plain_track a) (plain_track b) 0 0) }
{
    sized(alloc, a, b, 0, 0)
}

/// Two points that cross at right angles, one kilometre apart.
pub fn crossing(alloc: Global) -> Result<Problem, AllocError>
    ensures tracks { IfOk result (λ problem. length problem.tracks ≡ 2) }
    ensures slots { IfOk result (λ problem. slot_count problem.window.first.micros problem.window.last.micros ≡ 2) }
    ensures value { IfOk result (λ problem. plain_problem problem ≡ case_of path_along_y path_along_z 0 0) }
{
    problem_of(alloc, along_y(alloc)?, along_z(alloc)?)
}

/// Two points at rest, as far apart as the threshold.
pub fn resting(alloc: Global) -> Result<Problem, AllocError>
    ensures tracks { IfOk result (λ problem. length problem.tracks ≡ 2) }
    ensures threshold { IfOk result (λ problem. problem.threshold ≡ 5000000000000) }
    ensures sizes { IfOk result (λ problem. problem.sizes ≡ 0 ∷ 0 ∷ []) }
    ensures value { IfOk result (λ problem. plain_problem problem ≡ case_of (resting_at 7000) (resting_at 7005) 0 0) }
{
    let a = track_of(alloc, rest(alloc, 0, 60, AT_7000)?)?;
    let b = track_of(alloc, rest(alloc, 0, 60, AT_7005)?)?;
    problem_of(alloc, a, b)
}
