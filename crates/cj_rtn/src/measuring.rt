//! The axes of an object, and what a vector is along them.
ghost use Rattle.std.specs.Prelude.{◌≡◌, ◌*◌, ◌^◌, ◌<◌, true, IfSome};
ghost use Rattle.cj_hermite.specs.Limits.{REACH};
ghost use Rattle.cj_rtn.specs.Axes as spec;
ghost use Rattle.cj_rtn.specs.Axes.{AreAxes};
ghost use Rattle.cj_rtn.specs.Relative.{values_along};
ghost use Rattle.cj_rtn.specs.Vectors.{IsEachWithin};
ghost use Rattle.cj_track.specs.Limits.{MAX_RATE};

use crate::axes::Axes;
use crate::relative::AxisValues;
use crate::state::State;
use crate::vector::Vector;
use crate::vectors::{along, cross, divided, square};

/// The square of the least length of a place in nm, and of a normal, that gives axes.
const LEAST_SQUARE: u128 = 1_000_000_000_000_000_000_000_000_000_000;

/// What a normal is divided by, so that its products fit.
const NORMAL_UNIT: u64 = 10_000_000_000_000;

/// What a transverse is divided by.
const TRANSVERSE_UNIT: u64 = 1_000_000_000_000_000_000;

/// The greatest component of a rate in nm/s.
const MOST_RATE: u128 = 20_000_000_000_000;

/// Whether no component of the rate exceeds that of a node.
#[tactic(auto, unfolding(crate::specs::Axes::is_slow))]
pub(crate) fn is_slow(state: &State) -> bool
    ensures value { result ≡ spec.is_slow state.now }
    ensures within { result ≡ true → IsEachWithin MAX_RATE state.now.rate }
{
    let rate = &state.rate;
    rate.x.unsigned_abs() <= MOST_RATE
        && rate.y.unsigned_abs() <= MOST_RATE
        && rate.z.unsigned_abs() <= MOST_RATE
}

/// Whether a vector is long enough to give an axis.
fn is_long(a: &Vector) -> bool
    requires { IsEachWithin (2 ^ 61) a.now }
    ensures { result ≡ spec.is_long a.now }
{
    LEAST_SQUARE <= square(a)
}

/// The axes of an object, or none where its place or its normal is too short.
#[tactic(auto, unfolding(crate::specs::Axes::axes_of))]
pub(crate) fn axes_of(state: &State) -> Option<Axes>
    requires place { IsEachWithin REACH state.now.place }
    requires rate { IsEachWithin MAX_RATE state.now.rate }
    ensures value { result ≡ spec.axes_of state.now }
    ensures long { IfSome result AreAxes }
{
    let normal = normal(state);
    if !is_long(&state.place) || !is_long(&normal) {
        return None;
    }
    let transverse = transverse(state, &normal);
    Some(Axes {
        radial: state.place,
        transverse,
        normal,
    })
}

/// The axis across the place and the rate.
fn normal(state: &State) -> Vector
    requires place { IsEachWithin REACH state.now.place }
    requires rate { IsEachWithin MAX_RATE state.now.rate }
    ensures value { result ≡ spec.normal state.now }
    ensures within { IsEachWithin 2_096_000_000_000_000_000 result }
{
    divided(&cross(&state.place, &state.rate), NORMAL_UNIT)
}

/// The axis across the normal one and the place.
fn transverse(state: &State, normal: &Vector) -> Vector
    requires place { IsEachWithin REACH state.now.place }
    requires normal { normal.now ≡ spec.normal state.now }
    requires within { IsEachWithin 2_096_000_000_000_000_000 normal.now }
    ensures value { result ≡ spec.transverse state.now }
    ensures within { IsEachWithin (2 ^ 61) result }
{
    divided(&cross(normal, &state.place), TRANSVERSE_UNIT)
}

/// What a vector is along axes.
#[tactic(auto, unfolding(crate::specs::Relative::values_along))]
pub(crate) fn values_along(axes: &Axes, x: &Vector) -> AxisValues
    requires axes { AreAxes axes.now }
    requires near { IsEachWithin (2 ^ 60) x.now }
    ensures { result ≡ values_along axes.now x.now }
{
    AxisValues {
        r: along(x, &axes.radial),
        t: along(x, &axes.transverse),
        n: along(x, &axes.normal),
    }
}
