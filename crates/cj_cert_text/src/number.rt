//! The numbers of a certificate, of any length.
ghost use Rattle.std.specs.Prelude.{◌≡◌, ◌-◌, ◌^◌, ◌≤◌, ◌≤ℤ◌, IfOk, IsTrue, MatchOption, false, true, length, min, unsigned_abs};
ghost use Rattle.std.specs.Char.{is_ascii_digit};
ghost use Rattle.std.specs.List.{list_all};
ghost use Rattle.std.specs.Option.{option_map};
ghost use Rattle.std.specs.Str.Parse.{digits_value, starts_with_minus};
ghost use Rattle.cj_cert_text.specs.Lines.{is_coordinate, is_from, is_object, is_reach, is_slot, is_tick, object_of};
ghost use Rattle.cj_cert_text.specs.Numbers as spec;
ghost use Rattle.cj_cert_text.specs.Readers.{Takes, capped};

use cj_base::Tick;
use cj_formats::{CertCause, CertFormat};

/// The number that a text says. The greatest u64 stands for all that is greater too, and its negative for all that is less.
#[tactic(auto, unfolding(crate::specs::Numbers::number_of))]
pub(crate) fn read_number(text: &[u8]) -> Option<i128>
    ensures { result ≡ option_map capped (spec.number_of text.now) }
{
    let (negative, digits) = split_minus(text);
    let size = i128::from(numeral(digits)?);
    if text == b"-0".as_slice() {
        return None;
    }
    Some(if negative { -size } else { size })
}

/// Whether a minus stands first, and what stands behind it.
fn split_minus(text: &[u8]) -> (bool, &[u8])
    ensures negative { result.0 ≡ starts_with_minus text.now }
    ensures rest { result.1.now ≡ spec.without_minus text.now }
{
    match text {
        [b'-', digits @ ..] => (true, digits),
        _ => (false, text),
    }
}

/// What one digit or more say, with no zero in front of others, up to the greatest u64.
fn numeral(text: &[u8]) -> Option<u64>
    ensures { MatchOption result (spec.is_numeral text.now ≡ false)
        (λ size. (spec.is_numeral text.now ≡ true) × (size ≡ min (digits_value 10 text.now) (2 ^ 64 - 1))) }
{
    match text {
        [] | [b'0', _, ..] => None,
        _ => digits_said(text),
    }
}

/// What digits alone say, up to the greatest u64.
fn digits_said(text: &[u8]) -> Option<u64>
    ensures { MatchOption result (list_all is_ascii_digit text.now ≡ false)
        (λ size. (list_all is_ascii_digit text.now ≡ true) × (size ≡ min (digits_value 10 text.now) (2 ^ 64 - 1))) }
{
    if text.len() <= SHORT {
        short_value(text)
    } else if are_digits(text) {
        Some(size_of(text))
    } else {
        None
    }
}

/// So many digits always say a number below the greatest u64.
const SHORT: usize = 19;

/// What few digits alone say.
fn short_value(text: &[u8]) -> Option<u64>
    requires { length text.now ≤ 19 }
    ensures { MatchOption result (list_all is_ascii_digit text.now ≡ false)
        (λ value. (list_all is_ascii_digit text.now ≡ true) × (value ≡ digits_value 10 text.now)) }
{
    let mut value: u64 = 0;
    for byte in text {
        if !byte.is_ascii_digit() {
            return None;
        }
        value = value * 10 + u64::from(*byte - b'0');
    }
    Some(value)
}

fn are_digits(text: &[u8]) -> bool
    ensures { result ≡ list_all is_ascii_digit text.now }
{
    text.iter().all(|b| b.is_ascii_digit())
}

/// The number that digits say, up to the greatest u64.
fn size_of(digits: &[u8]) -> u64
    requires { IsTrue (list_all is_ascii_digit digits.now) }
    ensures { result ≡ min (digits_value 10 digits.now) (2 ^ 64 - 1) }
{
    let mut size: u64 = 0;
    for digit in digits {
        size = size
            .saturating_mul(10)
            .saturating_add(u64::from(*digit - b'0'));
    }
    size
}

/// The number, where it lies within this range.
pub(crate) fn within(number: i128, least: u64, most: u64) -> Result<u64, CertCause>
    ensures { Takes (λ n. n) (is_from least most number) (unsigned_abs number) result }
{
    if i128::from(least) <= number && number <= i128::from(most) {
        Ok(number as u64)
    } else {
        Err(CertCause::Range)
    }
}

/// The object of this number, where objects are counted from 1.
pub(crate) fn object(format: CertFormat, number: i128) -> Result<u32, CertCause>
    ensures { Takes (λ n. n) (is_object format number) (object_of number) result }
{
    Ok((within(number, 1, u64::from(format.most_objects()))? - 1) as u32)
}

pub(crate) fn slot(number: i128) -> Result<u32, CertCause>
    ensures { Takes (λ n. n) (is_slot number) (unsigned_abs number) result }
{
    Ok(within(number, 0, u64::from(u32::MAX))? as u32)
}

pub(crate) fn tick(number: i128) -> Result<Tick, CertCause>
    ensures { Takes (λ t. t.micros) (is_tick number) (unsigned_abs number) result }
{
    let micros = within(number, Tick::FIRST.micros, Tick::LAST.micros)?;
    Ok(Tick { micros })
}

fn coordinate(number: i128) -> Result<i64, CertCause>
    ensures { Takes (λ z. z) (is_coordinate number) number result }
{
    if i128::from(i64::MIN) <= number && number <= i128::from(i64::MAX) {
        Ok(number as i64)
    } else {
        Err(CertCause::Range)
    }
}

/// How far something reaches on an axis, from its least to its greatest coordinate.
pub(crate) fn reach(least: i128, most: i128) -> Result<(i64, i64), CertCause>
    ensures value { Takes (λ ends. ends) (is_reach least most) (least, most) result }
    ensures ordered { IfOk result (λ ends. ends.0 ≤ℤ ends.1) }
{
    let from = coordinate(least)?;
    let to = coordinate(most)?;
    if from <= to {
        Ok((from, to))
    } else {
        Err(CertCause::Range)
    }
}
