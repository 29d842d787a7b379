ghost use Rattle.std.specs.Prelude.{◌≡◌, ◌==◌, ◌*◌, ◌<◌, ◌≤◌, ◌^◌, length, IsTrue};
ghost use Rattle.std.specs.Char.{is_ascii_digit};
ghost use Rattle.std.specs.List.{list_all};
ghost use Rattle.std.specs.Str.Parse.{digits_value};

/// Whether each digit is 0.
pub fn are_zeros(digits: &[u8]) -> bool
    ensures { result ≡ list_all (λ d. d == 48) digits.now }
{
    digits.iter().all(|digit| *digit == b'0')
}

/// A number times ten to the power.
pub fn raised(number: u32, power: usize) -> u32
    requires power { power ≤ 6 }
    requires room { number * 10 ^ power < 2 ^ 32 }
    ensures { result ≡ number * 10 ^ power }
{
    const POWERS: [u32; 7] = [1, 10, 100, 1000, 10_000, 100_000, 1_000_000];
    number * POWERS[power]
}
