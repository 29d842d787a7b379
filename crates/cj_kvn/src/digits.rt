//! Texts of digits alone.
ghost use Rattle.std.specs.Prelude.{◌≡◌, ◌<◌, ◌≤◌, ◌^◌, length, IsTrue};
ghost use Rattle.std.specs.Str.Parse.{digits_value};
ghost use Rattle.cj_kvn.specs.Numbers.{are_digits};

/// Whether a text has digits and nothing else.
pub fn has_digits_alone(text: &[u8]) -> bool
    ensures { result ≡ are_digits text.now }
{
    text.iter().all(|byte| byte.is_ascii_digit())
}

/// The number that at most six digits write, and 0 where there are none.
pub fn number_from_digits(digits: &[u8]) -> u32
    requires all { IsTrue (are_digits digits.now) }
    requires short { length digits.now ≤ 6 }
    ensures value { result ≡ digits_value 10 digits.now }
    ensures small { result < 10 ^ length digits.now }
{
    let mut value = 0;
    for digit in digits {
        value = value * 10 + u32::from(*digit - b'0');
    }
    value
}
