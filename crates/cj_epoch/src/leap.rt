ghost use Rattle.std.specs.Prelude.{◌≡◌, ◌<◌, ◌≤◌, ◌&&◌, nat_lt, nat_le, length};
ghost use Rattle.std.specs.List.{list_any, AllWithin};
ghost use Rattle.std.specs.List.Sorted.{IsNonDecreasing};
ghost use Rattle.cj_base.specs.LeapSeconds.{leap_lies_between};

use cj_base::{DAY, Tick};

/// The first ticks of the days that follow a leap second, in order.
const AFTER_LEAP_SECONDS: [u64; 27] = [
    912 * DAY, // 1972-07-01
    1096 * DAY, // 1973-01-01
    1461 * DAY, // 1974-01-01
    1826 * DAY, // 1975-01-01
    2191 * DAY, // 1976-01-01
    2557 * DAY, // 1977-01-01
    2922 * DAY, // 1978-01-01
    3287 * DAY, // 1979-01-01
    3652 * DAY, // 1980-01-01
    4199 * DAY, // 1981-07-01
    4564 * DAY, // 1982-07-01
    4929 * DAY, // 1983-07-01
    5660 * DAY, // 1985-07-01
    6574 * DAY, // 1988-01-01
    7305 * DAY, // 1990-01-01
    7670 * DAY, // 1991-01-01
    8217 * DAY, // 1992-07-01
    8582 * DAY, // 1993-07-01
    8947 * DAY, // 1994-07-01
    9496 * DAY, // 1996-01-01
    10043 * DAY, // 1997-07-01
    10592 * DAY, // 1999-01-01
    13149 * DAY, // 2006-01-01
    14245 * DAY, // 2009-01-01
    15522 * DAY, // 2012-07-01
    16617 * DAY, // 2015-07-01
    17167 * DAY, // 2017-01-01
];

/// Whether a leap second lies between two ticks: the first tick of a day that follows one is later than `a` and not later
/// than `b`.
pub fn leap_between(a: Tick, b: Tick) -> bool
    ensures { result ≡ leap_lies_between a.micros b.micros }
{
    has_within(&AFTER_LEAP_SECONDS, a.micros, b.micros)
}

/// Whether one of the ascending numbers is greater than `low` and not greater than `high`.
fn has_within(numbers: &[u64], low: u64, high: u64) -> bool
    requires { IsNonDecreasing numbers.now }
    ensures { result ≡ list_any (λ n. nat_lt low n && nat_le n high) numbers.now }
{
    let next = first_above(numbers, low);
    next < numbers.len() && numbers[next] <= high
}

/// The place of the first of the ascending numbers that is greater, or their count where none is.
fn first_above(numbers: &[u64], low: u64) -> usize
    requires { IsNonDecreasing numbers.now }
    ensures bound { result ≤ length numbers.now }
    ensures below { AllWithin (λ n. n ≤ low) numbers.now 0 result }
    ensures above { AllWithin (λ n. low < n) numbers.now result (length numbers.now) }
{
    numbers.partition_point(|number| *number <= low)
}
