//! The judgement of two pieces made ready, as a whole.
ghost use Rattle.std.specs.Prelude.{◌≡◌, ◌^◌, ◌≤◌};
ghost use Rattle.cj_hermite.specs.Interpolant.{IsOver};
ghost use Rattle.cj_hermite.specs.Ready.{curve_ready};
ghost use Rattle.cj_bezier.specs.Verdicts.{cell_verdict};

use crate::gap_of_hulls::gap;
use crate::hull_of_piece::hull_ready;
use crate::verdict_of_gap::verdict;
use crate::verdicts::Verdict;
use cj_base::Tick;
use cj_hermite::Ready;

/// The verdict on two pieces over the ticks from `first` to `last`, against a length in nm.
#[tactic(auto, unfolding(crate::specs::Verdicts::cell_verdict))]
pub fn judge(a: &Ready, b: &Ready, thr: u64, first: Tick, last: Tick) -> Verdict
    requires order { first.micros ≤ last.micros }
    requires first_over { IsOver (curve_ready a.now) first.micros last.micros }
    requires second_over { IsOver (curve_ready b.now) first.micros last.micros }
    requires least { 10 ^ 9 ≤ thr }
    requires most { thr ≤ 10 ^ 16 }
    ensures { result ≡ cell_verdict (curve_ready a.now) (curve_ready b.now) thr first.micros last.micros }
{
    verdict(
        &gap(&hull_ready(a, first, last), &hull_ready(b, first, last)),
        thr,
    )
}
