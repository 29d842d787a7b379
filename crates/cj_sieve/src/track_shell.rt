//! The shell of a track in a window.
ghost use Rattle.std.specs.Prelude.{◌≡◌, ℕ, ◌^◌, ◌≤◌, Some, IfSome};
ghost use Rattle.cj_track.specs.Tracks.{plain_track};
ghost use Rattle.cj_hermite.specs.Pieces.{piece_holding, curve_of_piece};
ghost use Rattle.cj_bezier.specs.Gaps.{terms_of};
ghost use Rattle.cj_bezier.specs.Parts.{AreInTime};
ghost use Rattle.cj_bezier.specs.Shells.{IsInner, IsOuter, IsRadiusWithin, IsShellOf, shell_of};
ghost use Rattle.cj_walk.specs.TrackWalks.{IsWalk};

use cj_bezier::{Gap, greatest_square, least_square};
use cj_case::Shell;
use cj_interval::{isqrt_down, isqrt_up};
use cj_walk::TrackWalk;

/// The greatest inner and the least outer radius that a gap against the origin shows.
fn radii(gap: &Gap) -> Shell
    ensures inner { IsInner (terms_of gap.now.terms) result.lo }
    ensures greatest { (r : ℕ) → IsInner (terms_of gap.now.terms) r → r ≤ result.lo }
    ensures outer { IsOuter (terms_of gap.now.terms) result.hi }
    ensures least { (r : ℕ) → IsOuter (terms_of gap.now.terms) r → result.hi ≤ r }
    ensures ordered { result.lo ≤ result.hi }
{
    Shell {
        lo: isqrt_down(least_square(gap)),
        hi: isqrt_up(greatest_square(gap)),
    }
}

/// The shell of a walk's track in its window: the walk goes on to its end.
pub fn shell(mut walk: TrackWalk<'_>) -> Shell
    requires { IsWalk walk }
    ensures exact { Some result ≡ shell_of (plain_track walk.entry.track.now) walk.entry.window.first.micros walk.entry.window.last.micros }
    ensures value { IsShellOf (plain_track walk.entry.track.now) walk.entry.window.first.micros walk.entry.window.last.micros result }

    // The shell holds the distance from the origin at each tick that has a state.
    ensures holds { (m : ℕ) → walk.entry.window.first.micros ≤ m → m ≤ walk.entry.window.last.micros
        → IfSome (piece_holding (plain_track walk.entry.track.now) m) (λ x. IsRadiusWithin (curve_of_piece x) m result.lo result.hi) }
    ensures ordered { result.lo ≤ result.hi }
    ensures bounded { result.hi ≤ 10 ^ 18 }

    // A track's pieces come in order of time, as the laws of hulls ask.
    ensures time { AreInTime (plain_track walk.entry.track.now) walk.entry.window.first.micros walk.entry.window.last.micros }
{
    radii(&walk.gap_of_all())
}
