//! The runs of ticks at which each of two tracks is at one piece, one after another.
ghost use Rattle.std.specs.Prelude.{◌≡◌, ◌≤◌, [], Some, option_map, IfNone, IfSome};
ghost use Rattle.cj_track.specs.Tracks.{plain_track};
ghost use Rattle.cj_hermite.specs.CommonRuns.{runs_between, both_numbers, IsNextCommon};
ghost use Rattle.cj_hermite.specs.Interpolant.{curve_of};
ghost use Rattle.cj_hermite.specs.Pieces.{piece_holding, curve_of_piece};

use crate::common_run::CommonRun;
use crate::hints::PairHint;
use crate::walking::run_from;
use cj_base::{Tick, Window};
use cj_track::Track;

/// The first run of ticks at which each of two tracks is at one piece, of those from `from` to `last`.
/// The hints then say where it is.
pub fn next_common(
    a: &Track,
    b: &Track,
    from: Tick,
    last: Tick,
    hint: &mut PairHint,
) -> Option<Window>
    ensures none { IfNone result (runs_between (both_numbers (plain_track a.now) (plain_track b.now)) from.micros last.micros ≡ []) }
    ensures run { IfSome result (IsNextCommon (plain_track a.now) (plain_track b.now) from.micros last.micros) }
    ensures from { IfSome result (λ run. from.micros ≤ run.first.micros) }
    ensures some { IfSome result (λ run. run.first.micros ≤ run.last.micros) }
    ensures to { IfSome result (λ run. run.last.micros ≤ last.micros) }
{
    let run = next_common_pieces(a, b, from, last, hint)?;
    Some(run.ticks)
}

/// The same run with its pieces.
pub fn next_common_pieces(
    a: &Track,
    b: &Track,
    from: Tick,
    last: Tick,
    hint: &mut PairHint,
) -> Option<CommonRun>
    ensures none { IfNone result (runs_between (both_numbers (plain_track a.now) (plain_track b.now)) from.micros last.micros ≡ []) }
    ensures run { IfSome result (λ run. IsNextCommon (plain_track a.now) (plain_track b.now) from.micros last.micros run.ticks) }
    ensures first { IfSome result (λ run. option_map curve_of_piece (piece_holding (plain_track a.now) run.ticks.first.micros) ≡ Some (curve_of run.first)) }
    ensures second { IfSome result (λ run. option_map curve_of_piece (piece_holding (plain_track b.now) run.ticks.first.micros) ≡ Some (curve_of run.second)) }
    ensures from { IfSome result (λ run. from.micros ≤ run.ticks.first.micros) }
    ensures some { IfSome result (λ run. run.ticks.first.micros ≤ run.ticks.last.micros) }
    ensures to { IfSome result (λ run. run.ticks.last.micros ≤ last.micros) }
{
    let mut at = from;
    loop {
        let x = run_from(a, at, last, &mut hint.a)?;
        let y = run_from(b, at, last, &mut hint.b)?;
        let first = x.ticks.first.later(y.ticks.first);
        let end = x.ticks.last.earlier(y.ticks.last);
        if first.micros <= end.micros {
            return Some(CommonRun {
                ticks: Window { first, last: end },
                first: x.piece,
                second: y.piece,
            });
        }
        at = first;
    }
}
