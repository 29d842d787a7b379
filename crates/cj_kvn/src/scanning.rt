//! Reading the text of a number from left to right.
ghost use Rattle.std.specs.Prelude.{◌≡◌, ◌+◌, ◌^◌, ◌<◌, ◌≤◌, ℕ, false, true, ◌&&◌, nat_le, if◌then◌else◌, length, IsTrue, IfSome, MatchOption, pos, neg_ℤ, ◌+ℤ◌, ◌-ℤ◌, ◌≤ℤ◌, unsigned_abs};
ghost use Rattle.std.specs.Str.Parse.{digits_value, digits_value_after, signed_digits_value, starts_with_minus, without_leading_sign};
ghost use Rattle.cj_kvn.specs.Numbers.{are_digits, is_exponent, is_number, number, parts_of};
ghost use Rattle.cj_kvn.specs.Scanning.{Begins, Leads, after_fraction, after_run, exponent_said, fraction_run, run};

use crate::digits::{has_digits_alone, number_from_digits};
use crate::leading::{Leading, Scanned};

/// The number that a text says, or none where it has not the form of a number.
pub fn scan(text: &[u8]) -> Option<Scanned>
    requires { length text.now < 2 ^ 32 }
    ensures { MatchOption result (is_number (parts_of text.now) ≡ false)
        (λ s. (is_number (parts_of text.now) ≡ true) × Begins s (number (parts_of text.now))) }
{
    let (negative, unsigned) = split_sign(text);
    let (whole, behind) = read_run(Leading::NONE, unsigned);
    let (digits, fraction_len, rest) = read_fraction(whole, behind);
    if behind.len() == unsigned.len() && fraction_len == 0 {
        return None;
    }
    let exponent = read_exponent(rest)?;
    Some(Scanned {
        negative,
        leading: digits.value,
        power: power_of(exponent, fraction_len, digits.past),
    })
}

/// The power of ten of the last digit that was kept.
fn power_of(exponent: i64, fraction_len: usize, past: u32) -> i64
    requires exponent { unsigned_abs exponent < 10 ^ 4 }
    requires fraction { fraction_len < 2 ^ 32 }
    ensures value { result ≡ (exponent -ℤ pos fraction_len) +ℤ pos past }
    ensures low { neg_ℤ (pos (2 ^ 40)) ≤ℤ result }
    ensures high { result ≤ℤ pos (2 ^ 40) }
{
    exponent - fraction_len as i64 + i64::from(past)
}

/// Whether a minus stands first, and what stands behind a sign.
fn split_sign(text: &[u8]) -> (bool, &[u8])
    ensures negative { result.0 ≡ starts_with_minus text.now }
    ensures rest { result.1.now ≡ without_leading_sign text.now }
    ensures short { length result.1.now ≤ length text.now }
{
    match text {
        [b'-', rest @ ..] => (true, rest),
        [b'+', rest @ ..] => (false, rest),
        _ => (false, text),
    }
}

/// Reads the digits at the front, behind those that were read before, and gives what stands behind them.
fn read_run(before: Leading, text: &[u8]) -> (Leading, &[u8])
    requires { before.past + length text.now < 2 ^ 32 }
    ensures leads { (n : ℕ) → Leads before n → Leads result.0 (digits_value_after 10 n (run text.now)) }
    ensures past { result.0.past + length result.1.now ≤ before.past + length text.now }
    ensures rest { result.1.now ≡ after_run text.now }
{
    let mut digits = before;
    let mut rest = text;
    while let [b, others @ ..] = rest {
        if !b.is_ascii_digit() {
            break;
        }
        digits = digits.push(*b - b'0');
        rest = others;
    }
    (digits, rest)
}

/// Reads the digits behind a point at the front, and gives how many there are and what stands behind them.
fn read_fraction(whole: Leading, text: &[u8]) -> (Leading, usize, &[u8])
    requires { whole.past + length text.now < 2 ^ 32 }
    ensures leads { (n : ℕ) → Leads whole n → Leads result.0 (digits_value_after 10 n (fraction_run text.now)) }
    ensures past { result.0.past ≤ whole.past + length text.now }
    ensures count { result.1 ≡ length (fraction_run text.now) }
    ensures short { result.1 ≤ length text.now }
    ensures rest { result.2.now ≡ after_fraction text.now }
{
    match text {
        [b'.', fraction @ ..] => {
            let (digits, rest) = read_run(whole, fraction);
            (digits, fraction.len() - rest.len(), rest)
        }
        _ => (whole, 0, text),
    }
}

/// The power that an exponent says, and 0 where there is none.
fn read_exponent(text: &[u8]) -> Option<i64>
    ensures value { result ≡ exponent_said text.now }
    ensures small { IfSome result (λ power. unsigned_abs power < 10 ^ 4) }
{
    match text {
        [] => Some(0),
        [b'E' | b'e', exponent @ ..] => read_power(exponent),
        _ => None,
    }
}

/// One to four digits, perhaps behind a sign.
fn read_power(text: &[u8]) -> Option<i64>
    ensures value { result ≡ (if is_exponent (Some text.now) then Some (signed_digits_value 10 text.now) else None) }
    ensures small { IfSome result (λ power. unsigned_abs power < 10 ^ 4) }
{
    let (negative, digits) = split_sign(text);
    if !is_short_run(digits) {
        return None;
    }
    let size = i64::from(number_from_digits(digits));
    Some(if negative { -size } else { size })
}

/// One to four digits and nothing else.
fn is_short_run(text: &[u8]) -> bool
    ensures { result ≡ (nat_le 1 (length text.now) && nat_le (length text.now) 4 && are_digits text.now) }
{
    1 <= text.len() && text.len() <= 4 && has_digits_alone(text)
}
