//! Whether two pieces stay within a length of each other.
ghost use Rattle.std.specs.Prelude.{◌≡◌, ◌^◌, ◌≤◌};
ghost use Rattle.cj_hermite.specs.Interpolant.{IsOver};
ghost use Rattle.cj_hermite.specs.Ready.{curve_ready};
ghost use Rattle.cj_thin.specs.Thinned.{are_near as the_are_near};

use cj_base::Tick;
use cj_bezier::{Verdict, judge};
use cj_hermite::Ready;

/// Whether two pieces are within a length in nm at each tick from `first` to `last`: part by part, and at the first part that is not
/// near it is known that they are not.
pub(crate) fn are_near(a: &Ready, b: &Ready, e: u64, first: Tick, last: Tick) -> bool
    requires order { first.micros ≤ last.micros }
    requires first_over { IsOver (curve_ready a.now) first.micros last.micros }
    requires second_over { IsOver (curve_ready b.now) first.micros last.micros }
    requires least { 10 ^ 9 ≤ e }
    requires most { e ≤ 10 ^ 12 }
    ensures { result ≡ the_are_near e (curve_ready a.now) (curve_ready b.now) first.micros last.micros }
{
    match judge(a, b, e, first, last) {
        Verdict::Near => true,
        Verdict::Far => false,
        Verdict::Undecided => false,
        Verdict::Split => {
            let middle = Tick {
                micros: (first.micros + last.micros) / 2,
            };
            are_near(a, b, e, first, middle) && are_near(a, b, e, middle.next(), last)
        }
    }
}
