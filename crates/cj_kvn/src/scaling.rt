//! Rounding a number that was read.
ghost use Rattle.std.specs.Prelude.{◌≡◌, ◌*◌, ◌^◌, ◌<◌, ◌≤◌, IfSome};
ghost use Rattle.std.specs.Option.{SomeIff};
ghost use Rattle.cj_base.specs.Numbers.{Number};
ghost use Rattle.cj_kvn.specs.Numbers.{nearest, scaled, scaled_size, signed};
ghost use Rattle.cj_kvn.specs.Scanning.{Begins};

use crate::leading::Scanned;
use crate::numbers::NumFault;
use crate::powers::ten_to;

/// The number times 10 to the power of the places, rounded to the nearest whole number.
pub fn scale(number: Scanned, places: u32) -> Result<i128, NumFault>
    requires { places ≤ 12 }
    ensures { (n : Number) → Begins number n → result ≡ scaled places n }
{
    let size = scaled_size_of(number, places).ok_or(NumFault::TooLarge)?;
    Ok(with_sign(number.negative, size))
}

fn with_sign(negative: bool, size: u128) -> i128
    requires { size ≤ 10 ^ 36 }
    ensures { result ≡ signed negative size }
{
    if negative {
        -(size as i128)
    } else {
        size as i128
    }
}

fn scaled_size_of(number: Scanned, places: u32) -> Option<u128>
    requires { places ≤ 12 }
    ensures value { (n : Number) → Begins number n → SomeIff result (scaled_size places n ≤ 10 ^ 36) (scaled_size places n) }
    ensures small { IfSome result (λ size. size ≤ 10 ^ 36) }
{
    let power = number.power + i64::from(places);
    if power >= 0 {
        raised(number.leading, power as u64)
    } else {
        at_most_limit(lowered(number.leading, power.unsigned_abs()))
    }
}

/// The number times 10 to the power, where it is at most 10^36.
fn raised(number: u128, power: u64) -> Option<u128>
    ensures { SomeIff result (number * 10 ^ power ≤ 10 ^ 36) (number * 10 ^ power) }
{
    if number == 0 {
        Some(0)
    } else if power <= 36 && number <= ten_to(36 - power) {
        Some(number * ten_to(power))
    } else {
        None
    }
}

/// The whole number nearest to the number divided by 10 to the power, halves upward.
pub fn lowered(number: u128, power: u64) -> u128
    requires some { 0 < power }
    requires small { number < 10 ^ 38 }
    ensures { result ≡ nearest number (10 ^ power) }
{
    if power > 38 {
        return 0;
    }
    let divisor = ten_to(power);
    (number + divisor / 2) / divisor
}

fn at_most_limit(size: u128) -> Option<u128>
    ensures { SomeIff result (size ≤ 10 ^ 36) size }
{
    if size <= ten_to(36) { Some(size) } else { None }
}
