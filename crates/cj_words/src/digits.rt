//! Whole numbers without a sign.
ghost use Rattle.std.specs.Prelude.{◌≡◌, ◌≤◌, ◌<◌, IsTrue, length};
ghost use Rattle.std.specs.Char.{is_ascii_digit};
ghost use Rattle.std.specs.List.{list_all};
ghost use Rattle.std.specs.Option.{SomeIff};
ghost use Rattle.std.specs.Str.Parse.{digits_value};
ghost use Rattle.cj_words.specs.Settings as spec;

use cj_kvn::has_digits_alone;

/// The number that one to twenty decimal digits say.
pub fn read_number(text: &[u8]) -> Option<u128>
    ensures { SomeIff result (IsTrue (spec.is_number text.now)) (digits_value 10 text.now) }
{
    if is_number(text) {
        Some(value_of(text))
    } else {
        None
    }
}

fn is_number(text: &[u8]) -> bool
    ensures { result ≡ spec.is_number text.now }
{
    1 <= text.len() && text.len() <= 20 && has_digits_alone(text)
}

fn value_of(digits: &[u8]) -> u128
    requires all { IsTrue (list_all is_ascii_digit digits.now) }
    requires short { length digits.now ≤ 20 }
    ensures { result ≡ digits_value 10 digits.now }
{
    let mut value = 0;
    for digit in digits {
        value = value * 10 + u128::from(*digit - b'0');
    }
    value
}
