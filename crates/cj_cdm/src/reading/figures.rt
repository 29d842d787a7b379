//! The numbers of a message.
ghost use Rattle.std.specs.Prelude.{◌≡◌, ◌+◌, ◌≤◌, ◌<◌, ◌^◌, length, neg_ℤ, pos, ◌≤ℤ◌, unsigned_abs, option_map, IfSome, true};
ghost use Rattle.std.specs.Result.{result_ok};
ghost use Rattle.std.specs.List.{after_first, before_first};
ghost use Rattle.cj_base.specs.Decimals.{number_of, shifted};
ghost use Rattle.cj_kvn.specs.Numbers.{scaled_of};
ghost use Rattle.cj_cdm.specs.Read.{bytes_of};
ghost use Rattle.cj_cdm.specs.Values as spec;
ghost use Rattle.cj_cdm.specs.Values.{axis_value_said, decimal_said, element_said, fixed_said, id_said, is_decimal, is_mark, is_power, kept, kilometres_said, miss_said, number_said, scientific};

use crate::printing::{fixed_text, number_text};
use crate::reading::values::{before_ending, behind_front, place_of};
use cj_base::Decimal;
use cj_kvn::{decimal_text, read_decimal, read_scaled};

/// What stands before this unit.
pub(crate) fn before_unit<'a>(unit: &[u8], value: &'a [u8]) -> Option<&'a [u8]>
    ensures { option_map bytes_of result ≡ spec.before_unit unit.now value.now }
{
    let text = before_ending(unit, before_ending(b"]", value)?)?;
    before_ending(b" [", text)
}

/// The number at the end of the id of a message, behind its originator.
pub(crate) fn id(originator: &[u8], value: &[u8]) -> Option<u32>
    requires { length value.now < 2 ^ 32 }
    ensures { result ≡ id_said originator.now value.now }
{
    number(behind_front(b"_", behind_front(originator, value)?)?)
}

/// The number of a message, from 1 on, in the form in which it is written.
#[tactic(auto, unfolding(crate::specs::Values::number_said))]
fn number(text: &[u8]) -> Option<u32>
    requires { length text.now < 2 ^ 32 }
    ensures { result ≡ number_said text.now }
{
    let number = u32::try_from(read_scaled(text, 0).ok()?).ok()?;
    if number >= 1 && text == number_text(number).as_slice() {
        Some(number)
    } else {
        None
    }
}

/// A miss distance in nm, from metres with nine decimals.
pub(crate) fn miss(value: &[u8]) -> Option<u64>
    requires { length value.now < 2 ^ 32 }
    ensures { result ≡ miss_said value.now }
{
    u64::try_from(fixed(before_unit(b"m", value)?, 9)?).ok()
}

/// A value along an axis in nm, from metres, or in nm/s, from metres per second, with nine decimals.
pub(crate) fn axis_value(unit: &[u8], value: &[u8]) -> Option<i64>
    requires { length value.now < 2 ^ 32 }
    ensures { result ≡ axis_value_said unit.now value.now }
{
    i64::try_from(fixed(before_unit(unit, value)?, 9)?).ok()
}

/// A coordinate in nm, or a rate in nm/s, with twelve decimals of its unit.
pub(crate) fn kilometres(unit: &[u8], value: &[u8]) -> Option<i128>
    requires { length value.now < 2 ^ 32 }
    ensures { result ≡ kilometres_said unit.now value.now }
{
    fixed(before_unit(unit, value)?, 12)
}

/// A number below 10^36 in size, in the form in which it is written with so many decimals.
#[tactic(auto, unfolding(crate::specs::Values::fixed_said))]
fn fixed(text: &[u8], places: u32) -> Option<i128>
    requires short { length text.now < 2 ^ 32 }
    requires some { 1 ≤ places }
    requires few { places ≤ 12 }
    ensures { result ≡ fixed_said places text.now }
{
    let number = read_scaled(text, places).ok()?;
    let is_short = number.unsigned_abs() < 1_000_000_000_000_000_000_000_000_000_000_000_000;
    if is_short && text == fixed_text(number, places).as_slice() {
        Some(number)
    } else {
        None
    }
}

/// An element of a covariance, in the form in which it is written.
pub(crate) fn element(unit: &[u8], value: &[u8]) -> Option<Decimal>
    requires { length value.now < 2 ^ 32 }
    ensures { option_map number_of result ≡ element_said unit.now value.now }
{
    decimal(before_unit(unit, value)?)
}

#[tactic(auto, unfolding(crate::specs::Values::decimal_said))]
fn decimal(text: &[u8]) -> Option<Decimal>
    requires { length text.now < 2 ^ 32 }
    ensures { option_map number_of result ≡ decimal_said text.now }
{
    let found = scientific(text)?;
    if has_form(found) && text == decimal_text(found).as_slice() {
        Some(found)
    } else {
        None
    }
}

/// The power of ten is from -200 to 200.
#[tactic(auto, unfolding(crate::specs::Values::is_decimal))]
fn has_form(number: Decimal) -> bool
    ensures value { result ≡ is_decimal (number_of number) }
    ensures small { result ≡ true → unsigned_abs number.exponent ≤ 200 }
{
    number.exponent.unsigned_abs() <= 200
}

/// A number before an `E`, times the power of ten that stands behind it.
fn scientific(text: &[u8]) -> Option<Decimal>
    requires { length text.now < 2 ^ 32 }
    ensures { option_map number_of result ≡ spec.scientific text.now }
{
    let (front, behind) = at_mark(text);
    let significand = read_decimal(front).ok()?;
    let power = power(behind)?;
    Some(raised(significand, power))
}

/// What stands before the first `E`, and what behind it.
fn at_mark(text: &[u8]) -> (&[u8], &[u8])
    ensures before { result.0.now ≡ before_first is_mark text.now }
    ensures behind { result.1.now ≡ after_first is_mark text.now }
{
    match place_of(text, b'E') {
        Some(at) => (&text[..at], &text[at + 1..]),
        None => (text, b""),
    }
}

/// A power of ten of at most three digits.
fn power(text: &[u8]) -> Option<i32>
    requires { length text.now < 2 ^ 32 }
    ensures value { result ≡ kept is_power (result_ok (scaled_of 0 text.now)) }
    ensures small { IfSome result (λ power. unsigned_abs power < 1000) }
{
    let power = read_scaled(text, 0).ok()?;
    if power.unsigned_abs() < 1000 {
        Some(power as i32)
    } else {
        None
    }
}

/// A number times a power of ten.
fn raised(number: Decimal, power: i32) -> Decimal
    requires low { neg_ℤ (pos 116) ≤ℤ number.exponent }
    requires high { number.exponent ≤ℤ pos 99 }
    requires small { unsigned_abs power < 1000 }
    ensures { number_of result ≡ shifted (number_of number) power }
{
    if number.digits == 0 {
        return number;
    }
    Decimal {
        negative: number.negative,
        digits: number.digits,
        exponent: number.exponent + power,
    }
}
