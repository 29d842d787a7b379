//! The text of a decimal number.
ghost use Rattle.std.specs.Prelude.{◌≡◌, ◌+◌, [], ◌∷◌, ◌++◌, if◌then◌else◌, ◌^◌, ◌<◌, ◌≤◌, length, pos, neg_ℤ, ◌≤ℤ◌, Ok, decimal, int_lt};
ghost use Rattle.arrayvec.specs.ArrayVec.{array_vec_len};
ghost use Rattle.cj_base.specs.Decimals.{IsReadable, number_of};
ghost use Rattle.cj_kvn.specs.Decimals.{decimal_of, decimal_text_of, exponent_text, leading_power as the_power, significand_text};

use arrayvec::ArrayVec;
use cj_base::Decimal;

/// The number in scientific notation, as `-1.25E+02`.
pub fn decimal_text(value: Decimal) -> ArrayVec<u8, 32>
    requires low { neg_ℤ (pos 200) ≤ℤ value.exponent }
    requires high { value.exponent ≤ℤ pos 200 }
    ensures exact { result.items ≡ decimal_text_of (number_of value) }
    // What is printed is read again.
    ensures again { IsReadable (number_of value) → decimal_of result.items ≡ Ok (number_of value) }
{
    let mut text = ArrayVec::new();
    push_if(&mut text, value.negative, b'-');
    push_significand(&mut text, value.digits);
    text.push(b'E');
    push_exponent(&mut text, leading_power(value));
    text
}

/// The power of ten of the first digit, and 0 for zero.
fn leading_power(value: Decimal) -> i32
    requires low { neg_ℤ (pos 200) ≤ℤ value.exponent }
    requires high { value.exponent ≤ℤ pos 200 }
    ensures value { result ≡ the_power (number_of value) }
    ensures low { neg_ℤ (pos 200) ≤ℤ result }
    ensures high { result ≤ℤ pos 217 }
{
    if value.digits == 0 {
        0
    } else {
        value.exponent + value.digits.ilog10() as i32
    }
}

/// Appends the first digit, a point, and the other digits or 0.
fn push_significand(text: &mut ArrayVec<u8, 32>, digits: u64)
    requires short { digits < 10 ^ 18 }
    requires room { array_vec_len text.old ≤ 1 }
    ensures appended { text.new.items ≡ text.old.items ++ significand_text digits }
    ensures len { array_vec_len text.new ≤ 21 }
{
    let place = text.len() + 1;
    push_number(text, digits);
    text.insert(place, b'.');
    push_if(text, digits < 10, b'0');
}

/// Appends a sign and at least two digits.
fn push_exponent(text: &mut ArrayVec<u8, 32>, power: i32)
    requires low { neg_ℤ (pos 200) ≤ℤ power }
    requires high { power ≤ℤ pos 217 }
    requires room { array_vec_len text.old ≤ 22 }
    ensures { text.new.items ≡ text.old.items ++ exponent_text power }
{
    let size = power.unsigned_abs();
    text.push(sign_of(power));
    push_if(text, size < 10, b'0');
    push_number(text, u64::from(size));
}

fn sign_of(power: i32) -> u8
    ensures { result ≡ (if int_lt power (pos 0) then 45 else 43) }
{
    if power < 0 { b'-' } else { b'+' }
}

/// Appends a number in decimal.
fn push_number(text: &mut ArrayVec<u8, 32>, number: u64)
    requires { array_vec_len text.old + length (decimal number) ≤ 32 }
    ensures appended { text.new.items ≡ text.old.items ++ decimal number }
    ensures len { array_vec_len text.new ≡ array_vec_len text.old + length (decimal number) }
{
    if number < 10 {
        text.push(b'0' + number as u8);
    } else {
        push_number(text, number / 10);
        text.push(b'0' + (number % 10) as u8);
    }
}

/// Appends a byte where the condition holds.
fn push_if(text: &mut ArrayVec<u8, 32>, condition: bool, byte: u8)
    requires { array_vec_len text.old < 32 }
    ensures appended { text.new.items ≡ text.old.items ++ (if condition then byte ∷ [] else []) }
    ensures len { array_vec_len text.new ≤ array_vec_len text.old + 1 }
{
    if condition {
        text.push(byte);
    }
}
