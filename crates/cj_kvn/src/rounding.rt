//! Reading decimal numbers.
ghost use Rattle.std.specs.Prelude.{◌≡◌, ◌≢◌, ◌+◌, ◌-◌, ◌/◌, ◌%◌, ◌^◌, ◌<◌, ◌≤◌, length, IfOk, Ok, false, pos, neg_ℤ, ◌+ℤ◌, ◌≤ℤ◌};
ghost use Rattle.cj_base.specs.declared.decimals.Decimal.{Decimal};
ghost use Rattle.cj_base.specs.Numbers.{Number};
ghost use Rattle.cj_kvn.specs.Numbers.{nearest};
ghost use Rattle.cj_kvn.specs.Scanning.{Begins};
ghost use Rattle.cj_base.specs.Decimals.{IsReadable, is_huge, is_tiny, number_of};
ghost use Rattle.cj_kvn.specs.Decimals.{decimal_form, decimal_of, digit_count as the_count, number_read, rounded, rounded_number, trailing_zeros, without_trailing_zeros};

use crate::leading::Scanned;
use crate::numbers::NumFault;
use crate::rounded::Rounded;
use crate::scaling::lowered;
use crate::scanning::scan;
use cj_base::Decimal;

/// The number to 18 significant digits, halves away from zero. A number below 10^-99 in size is zero. It is too large
/// where its rounded size is 10^100 or more.
pub fn read_decimal(text: &[u8]) -> Result<Decimal, NumFault>
    requires { length text.now < 2 ^ 32 }
    ensures exact { number_read result ≡ decimal_of text.now }
    // No other decimal is the text's number.
    ensures only { (d : Decimal) → decimal_of text.now ≡ Ok (number_of d) → result ≡ Ok d }
    ensures readable { IfOk result (λ d. IsReadable (number_of d)) }
    ensures low { IfOk result (λ d. neg_ℤ (pos 116) ≤ℤ d.exponent) }
    ensures high { IfOk result (λ d. d.exponent ≤ℤ pos 99) }
{
    match scan(text) {
        None => Err(NumFault::NotNumber),
        Some(number) => round(number),
    }
}

fn round(number: Scanned) -> Result<Decimal, NumFault>
    ensures exact { (n : Number) → Begins number n → number_read result ≡ decimal_form n }
    ensures readable { IfOk result (λ d. IsReadable (number_of d)) }
{
    if is_below_least(number) {
        return Ok(Decimal::ZERO);
    }
    let rounded = shortened(number);
    if is_past_limit(rounded) {
        return Err(NumFault::TooLarge);
    }
    Ok(without_zeros(rounded))
}

/// The size is below 10^-99.
fn is_below_least(number: Scanned) -> bool
    ensures value { (n : Number) → Begins number n → result ≡ is_tiny n }
    ensures some { result ≡ false → 0 < number.leading }
    ensures power { result ≡ false → neg_ℤ (pos 137) ≤ℤ number.power }
    ensures above { result ≡ false → neg_ℤ (pos 98) ≤ℤ (number.power +ℤ pos (the_count number.leading)) }
{
    if number.leading == 0 {
        return true;
    }
    power_above(number.power, digit_count(number.leading)) <= -99
}

/// The number to 18 significant digits.
fn shortened(number: Scanned) -> Rounded
    requires { 0 < number.leading }
    ensures value { (n : Number) → Begins number n → rounded_number result ≡ rounded n }
    ensures power { number.power ≤ℤ result.power }
    ensures above { neg_ℤ (pos 98) ≤ℤ (number.power +ℤ pos (the_count number.leading)) → is_tiny (rounded_number result) ≡ false }
{
    let dropped = digit_count(number.leading).saturating_sub(18);
    Rounded {
        negative: number.negative,
        digits: rounded_digits(number.leading, dropped),
        power: number.power + i64::from(dropped),
    }
}

/// The first digits, without those that are dropped.
fn rounded_digits(leading: u128, dropped: u32) -> u64
    requires some { 0 < leading }
    requires small { leading < 10 ^ 38 }
    requires dropped { dropped ≡ the_count leading - 18 }
    ensures value { result ≡ nearest leading (10 ^ dropped) }
    ensures some { 0 < result }
    ensures short { result ≤ 10 ^ 18 }
{
    if dropped == 0 {
        leading as u64
    } else {
        lowered(leading, u64::from(dropped)) as u64
    }
}

/// The size is 10^100 or more.
fn is_past_limit(number: Rounded) -> bool
    ensures value { result ≡ is_huge (rounded_number number) }
    ensures power { result ≡ false → number.power ≤ℤ pos 100 }
{
    100 < power_above(number.power, digit_count(u128::from(number.digits)))
}

/// The power of ten next above a number of so many digits.
fn power_above(power: i64, count: u32) -> i64
    requires low { neg_ℤ (pos (2 ^ 41)) ≤ℤ power }
    requires high { power ≤ℤ pos (2 ^ 41) }
    ensures { result ≡ power +ℤ pos count }
{
    power + i64::from(count)
}

/// The same number with no zero digit at its end.
fn without_zeros(number: Rounded) -> Decimal
    requires low { neg_ℤ (pos 137) ≤ℤ number.power }
    requires high { number.power ≤ℤ pos 100 }
    ensures value { number_of result ≡ without_trailing_zeros (rounded_number number) }
    ensures some { 0 < result.digits }
    ensures tiny { is_tiny (number_of result) ≡ is_tiny (rounded_number number) }
    ensures huge { is_huge (number_of result) ≡ is_huge (rounded_number number) }
{
    let (digits, zeros) = cut_zeros(number.digits);
    Decimal {
        negative: number.negative,
        digits,
        exponent: (number.power + i64::from(zeros)) as i32,
    }
}

/// The digits before the zeros at the end, and how many zeros there are.
fn cut_zeros(number: u64) -> (u64, u32)
    requires some { 0 < number }
    requires short { number ≤ 10 ^ 18 }
    ensures digits { result.0 ≡ number / 10 ^ trailing_zeros number }
    ensures zeros { result.1 ≡ trailing_zeros number }
    ensures normal { result.0 % 10 ≢ 0 }
    ensures short { result.0 < 10 ^ 18 }
    ensures few { result.1 < 20 }
{
    let mut digits = number;
    let mut zeros = 0;
    while digits.is_multiple_of(10) {
        digits /= 10;
        zeros += 1;
    }
    (digits, zeros)
}

/// How many digits a number has, and 0 for zero.
fn digit_count(number: u128) -> u32
    ensures value { result ≡ the_count number }
    ensures few { result ≤ 39 }
{
    if number == 0 { 0 } else { number.ilog10() + 1 }
}
