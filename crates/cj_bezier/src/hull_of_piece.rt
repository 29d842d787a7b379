//! The hull of a piece.
ghost use Rattle.std.specs.Prelude.{◌≡◌, ℕ, ◌+◌, ◌≤◌};
ghost use Rattle.std.specs.List.{All};
ghost use Rattle.cj_hermite.specs.Boxes.{IsBoxWithin, IsBoxNarrow};
ghost use Rattle.cj_hermite.specs.Limits.{MAX_SPAN, REACH};
ghost use Rattle.cj_hermite.specs.Ready.{controls_ready, curve_ready};
ghost use Rattle.cj_bezier.specs.Hulls.{Encloses, hull_ends, hull_axes, ends_of, axes_of};
ghost use Rattle.cj_bezier.specs.Sizes.{HasEndsWithin, IsNarrow};

use crate::hulls::Hull;
use cj_base::Tick;
use cj_hermite::{Box3, Ready, ReadyAxis, first_level, second_level, third_level};
use cj_interval::{Fraction, Span};

/// The hull of one axis between two fractions of its piece. Its points share their levels.
fn hull_axis(axis: &ReadyAxis, a: &Fraction, b: &Fraction) -> [Span; 4]
    requires short { a.now.of ≤ MAX_SPAN }
    requires same { b.now.of ≡ a.now.of }
    requires order { a.now.at ≤ b.now.at }
    ensures value { ends_of result ≡ hull_ends (controls_ready axis.now a.now.of) a.now.of a.now.at b.now.at }
    ensures within { All (HasEndsWithin REACH) result }
    ensures narrow { All (IsNarrow 3) result }
{
    let at_first = first_level(axis, a);
    let at_last = first_level(axis, b);
    let start = second_level(&at_first, a);
    let middle = second_level(&at_first, b);
    let end = second_level(&at_last, b);
    [
        third_level(&start, a),
        third_level(&start, b),
        third_level(&middle, b),
        third_level(&end, b),
    ]
}

/// Four boxes of the spans of three axes.
#[tactic(auto, unfolding(crate::specs::Hulls::axes_of))]
fn points(x: &[Span; 4], y: &[Span; 4], z: &[Span; 4]) -> Hull
    requires x_within { All (HasEndsWithin REACH) x.now }
    requires y_within { All (HasEndsWithin REACH) y.now }
    requires z_within { All (HasEndsWithin REACH) z.now }
    requires x_narrow { All (IsNarrow 3) x.now }
    requires y_narrow { All (IsNarrow 3) y.now }
    requires z_narrow { All (IsNarrow 3) z.now }
    ensures value { axes_of result.points ≡ record { x = ends_of x.now; y = ends_of y.now; z = ends_of z.now } }
    ensures within { All (IsBoxWithin REACH) result.points }
    ensures narrow { All (IsBoxNarrow 3) result.points }
{
    Hull {
        points: [
            Box3 {
                x: x[0],
                y: y[0],
                z: z[0],
            },
            Box3 {
                x: x[1],
                y: y[1],
                z: z[1],
            },
            Box3 {
                x: x[2],
                y: y[2],
                z: z[2],
            },
            Box3 {
                x: x[3],
                y: y[3],
                z: z[3],
            },
        ],
    }
}

/// The hull of a piece made ready, over the ticks from `first` to `last`.
pub fn hull_ready(ready: &Ready, first: Tick, last: Tick) -> Hull
    requires order { first.micros ≤ last.micros }
    requires after { ready.now.start.micros ≤ first.micros }
    requires before { last.micros ≤ ready.now.start.micros + ready.now.divisor.of }
    ensures value { axes_of result.points ≡ hull_axes (curve_ready ready.now) first.micros last.micros }
    ensures within { All (IsBoxWithin REACH) result.points }
    ensures narrow { All (IsBoxNarrow 3) result.points }
    ensures encloses { (m : ℕ) → first.micros ≤ m → m ≤ last.micros
        → Encloses (axes_of result.points) (curve_ready ready.now) m }
{
    let from = ready.divisor.fraction(first.since(ready.start));
    let to = ready.divisor.fraction(last.since(ready.start));
    points(
        &hull_axis(&ready.x, &from, &to),
        &hull_axis(&ready.y, &from, &to),
        &hull_axis(&ready.z, &from, &to),
    )
}
