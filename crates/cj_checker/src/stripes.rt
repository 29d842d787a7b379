//! Stripes across the axis of a sweep, so that objects meet those alone that are near across it. A stripe is 1,000 km wide, and the
//! outermost ones hold all that lies further out.
ghost use Rattle.std.specs.Prelude.{◌≡◌, ◌*◌, ◌^◌, ◌<◌, ◌≤◌, ℕ, length, pos, ◌+ℤ◌, OnOk};
ghost use Rattle.std.specs.List.{Contains};
ghost use Rattle.cj_case.specs.declared.problem.Problem.{Problem};
ghost use Rattle.cj_interval.specs.Sizes.{IsWithin};
ghost use Rattle.cj_checker.specs.Sweeps.{Exist, MeetsStripe, moved as the_moved, stripe_in as the_stripe_in, stripe_of as the_stripe_of};
ghost use Rattle.cj_checker.specs.declared.reach.Reach.{Reach};

use crate::reach::Reach;
use std::alloc::AllocError;

/// How wide a stripe is in nm.
const STRIPE: u64 = 1_000_000_000_000_000;

/// How far below 0 the first stripe begins in nm.
const FIRST_STRIPE: i128 = 64_000_000_000_000_000;

/// How far behind the beginning of the first stripe the last one ends in nm.
const LAST_PLACE: i128 = 127_999_999_999_999_999;

/// How far the stripes lie behind one another along the axis of the sweep in nm: further than anything reaches.
const APART: i128 = 4_000_000_000_000_000_000;

/// The stripe in which a place lies.
fn stripe_of(place: i128) -> u32
    requires { IsWithin (2 ^ 70) place }
    ensures value { result ≡ the_stripe_of place }
    ensures few { result < 128 }
{
    let behind = place + FIRST_STRIPE;
    if behind < 0 {
        return 0;
    }
    (behind.min(LAST_PLACE) as u64 / STRIPE) as u32
}

/// The same where there are stripes, and else the only one.
fn stripe_in(striped: bool, place: i128) -> u32
    requires { IsWithin (2 ^ 70) place }
    ensures value { result ≡ the_stripe_in striped place }
    ensures few { result < 128 }
{
    if striped { stripe_of(place) } else { 0 }
}

/// A place along the axis, moved to a stripe.
fn moved_place(place: i128, stripe: u32) -> i128
    requires near { IsWithin (2 ^ 70) place }
    requires few { stripe < 128 }
    ensures { result ≡ place +ℤ pos (stripe * 4_000_000_000_000_000_000) }
{
    place + i128::from(stripe) * APART
}

/// An entry, moved to a stripe.
fn moved(own: &Reach, stripe: u32) -> Reach
    requires low { IsWithin (2 ^ 70) own.now.low }
    requires high { IsWithin (2 ^ 70) own.now.high }
    requires few { stripe < 128 }
    ensures { result ≡ the_moved stripe own.now }
{
    Reach {
        low: moved_place(own.low, stripe),
        high: moved_place(own.high, stripe),
        object: own.object,
    }
}

/// Enters an object in each stripe that it meets by how far it reaches across them.
pub(crate) fn enter_in_stripes(
    striped: bool,
    own: &Reach,
    across: &Reach,
    reaches: &mut Vec<Reach>,
) -> Result<(), AllocError>
    requires low { IsWithin (2 ^ 70) own.now.low }
    requires high { IsWithin (2 ^ 70) own.now.high }
    requires across_low { IsWithin (2 ^ 70) across.now.low }
    requires across_high { IsWithin (2 ^ 70) across.now.high }
    ensures exist { OnOk result ((problem : Problem) → own.now.object < length problem.tracks → Exist problem reaches.old.items
        → Exist problem reaches.new.items) }
    ensures kept { OnOk result ((reach : Reach) → Contains reaches.old.items reach → Contains reaches.new.items reach) }
    ensures entered { OnOk result ((stripe : ℕ) → MeetsStripe striped across.now stripe → Contains reaches.new.items (the_moved stripe own.now)) }
{
    let first = stripe_in(striped, across.low);
    let other = stripe_in(striped, across.high);
    let last = other.max(first);
    for stripe in first..last + 1 {
        reaches.push(moved(own, stripe))?;
    }
    Ok(())
}
