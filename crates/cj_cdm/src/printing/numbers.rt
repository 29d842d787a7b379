//! Numbers with their keys and units.
ghost use Rattle.std.specs.Prelude.{◌≡◌, ◌+◌, ◌≤◌, ◌<◌, decimal, length, [], ◌∷◌, ◌++◌, if◌then◌else◌, int_lt, pos, codes, OnOk};
ghost use Rattle.cj_base.specs.Decimals.{IsReadable, number_of};
ghost use Rattle.cj_kvn.specs.Decimals.{decimal_text_of};
ghost use Rattle.cj_cdm.specs.Building.{in_square_metres};
ghost use Rattle.arrayvec.specs.ArrayVec.{array_vec_len};
ghost use Rattle.cj_cdm.specs.Texts as spec;
ghost use Rattle.cj_cdm.specs.Texts.{kilometres, last_digits, metres, quantity};

use arrayvec::ArrayVec;
use cj_base::Decimal;
use cj_kvn::decimal_text;
use std::alloc::AllocError;

/// Adds a number of nm in metres, or one of nm/s in metres per second, all its digits.
pub(crate) fn push_metres(
    text: &mut Vec<u8>,
    key: &[u8],
    nm: i128,
    unit: &[u8],
) -> Result<(), AllocError>
    ensures { OnOk result (text.new.items ≡ text.old.items ++ quantity key.now (metres nm) unit.now) }
{
    push_front(text, key)?;
    text.extend_from_slice(&fixed_text(nm, 9))?;
    push_unit(text, unit)
}

/// Adds a number of nm in km, or one of nm/s in km/s, all its digits.
pub(crate) fn push_kilometres(
    text: &mut Vec<u8>,
    key: &[u8],
    nm: i128,
    unit: &[u8],
) -> Result<(), AllocError>
    ensures { OnOk result (text.new.items ≡ text.old.items ++ quantity key.now (kilometres nm) unit.now) }
{
    push_front(text, key)?;
    text.extend_from_slice(&fixed_text(nm, 12))?;
    push_unit(text, unit)
}

/// Adds an element of a covariance in square kilometres, or in these per second or square second, in metres.
pub(crate) fn push_element(
    text: &mut Vec<u8>,
    key: &[u8],
    value: Decimal,
    unit: &[u8],
) -> Result<(), AllocError>
    requires { IsReadable (number_of value) }
    ensures { OnOk result (text.new.items ≡ text.old.items ++ quantity key.now (decimal_text_of (in_square_metres (number_of value))) unit.now) }
{
    push_front(text, key)?;
    text.extend_from_slice(&decimal_text(value.shift(6)))?;
    push_unit(text, unit)
}

/// Adds a key and what stands before its value.
fn push_front(text: &mut Vec<u8>, key: &[u8]) -> Result<(), AllocError>
    ensures { OnOk result (text.new.items ≡ text.old.items ++ (key.now ++ codes " = ")) }
{
    text.extend_from_slice(key)?;
    text.extend_from_slice(b" = ")
}

/// Adds a unit behind a value, and the line's end.
fn push_unit(text: &mut Vec<u8>, unit: &[u8]) -> Result<(), AllocError>
    ensures { OnOk result (text.new.items ≡ text.old.items ++ (codes " [" ++ unit.now ++ codes "]\n")) }
{
    text.extend_from_slice(b" [")?;
    text.extend_from_slice(unit)?;
    text.extend_from_slice(b"]\n")
}

/// The text of a number, with room for every number.
pub(crate) type Figures = ArrayVec<u8, 64>;

/// A whole number of units of 10^-places, as a decimal fraction with so many decimals.
#[tactic(auto, unfolding(crate::specs::Texts::fixed_text))]
pub(crate) fn fixed_text(number: i128, places: u32) -> Figures
    requires some { 1 ≤ places }
    requires few { places ≤ 12 }
    ensures { result.items ≡ spec.fixed_text places number }
{
    let size = number.unsigned_abs();
    let mut text = Figures::new();
    push_sign(&mut text, number);
    push_decimal(&mut text, size / 10_u128.pow(places));
    text.push(b'.');
    push_digits(&mut text, size, places);
    text
}

/// The number of a message, with six digits or more.
pub(crate) fn number_text(number: u32) -> Figures
    ensures { result.items ≡ spec.number_text number }
{
    let mut text = Figures::new();
    if number < 1_000_000 {
        push_digits(&mut text, u128::from(number), 6);
    } else {
        push_decimal(&mut text, u128::from(number));
    }
    text
}

fn push_sign(text: &mut Figures, number: i128)
    requires { array_vec_len text.old < 64 }
    ensures appended { text.new.items ≡ text.old.items ++ (if int_lt number (pos 0) then 45 ∷ [] else []) }
    ensures len { array_vec_len text.new ≤ array_vec_len text.old + 1 }
{
    if number < 0 {
        text.push(b'-');
    }
}

/// Appends a number in decimal.
fn push_decimal(text: &mut Figures, number: u128)
    requires { array_vec_len text.old + length (decimal number) ≤ 64 }
    ensures appended { text.new.items ≡ text.old.items ++ decimal number }
    ensures len { array_vec_len text.new ≡ array_vec_len text.old + length (decimal number) }
{
    if number < 10 {
        text.push(b'0' + number as u8);
    } else {
        push_decimal(text, number / 10);
        text.push(b'0' + (number % 10) as u8);
    }
}

/// Appends the last so many digits of a number.
fn push_digits(text: &mut Figures, number: u128, count: u32)
    requires some { 1 ≤ count }
    requires room { array_vec_len text.old + count ≤ 64 }
    ensures appended { text.new.items ≡ text.old.items ++ last_digits count number }
    ensures len { array_vec_len text.new ≡ array_vec_len text.old + count }
{
    if count > 1 {
        push_digits(text, number / 10, count - 1);
    }
    text.push(b'0' + (number % 10) as u8);
}
