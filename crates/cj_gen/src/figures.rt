ghost use Rattle.std.specs.Prelude.{◌≡◌, ◌<◌, ◌++◌, [], ◌∷◌, codes, decimal, if◌then◌else◌, int_lt, pos, OnOk};
ghost use Rattle.cj_epoch.specs.Written as written;
ghost use Rattle.cj_gen.specs.Texts as spec;
ghost use Rattle.cj_gen.specs.Texts.{kilometres, kilometres_a_second, place_text, rate_text};

use crate::tilt::Vector;
use itoa::Buffer;
use std::alloc::AllocError;

/// Adds a place in km, a space before each number.
pub(crate) fn push_place(text: &mut Vec<u8>, place: Vector) -> Result<(), AllocError>
    ensures { OnOk result (text.new.items ≡ text.old.items ++ place_text place) }
{
    push_kilometres(text, place.x)?;
    push_kilometres(text, place.y)?;
    push_kilometres(text, place.z)
}

/// Adds a rate in km/s, a space before each number.
pub(crate) fn push_rate(text: &mut Vec<u8>, rate: Vector) -> Result<(), AllocError>
    ensures { OnOk result (text.new.items ≡ text.old.items ++ rate_text rate) }
{
    push_kilometres_a_second(text, rate.x)?;
    push_kilometres_a_second(text, rate.y)?;
    push_kilometres_a_second(text, rate.z)
}

/// Adds a space and a number of metres as km.
fn push_kilometres(text: &mut Vec<u8>, metres: i64) -> Result<(), AllocError>
    ensures { OnOk result (text.new.items ≡ text.old.items ++ codes " " ++ kilometres metres) }
{
    let size = metres.unsigned_abs();
    push_decimal(
        text,
        sign(metres),
        size / 1_000,
        &three((size % 1_000) as u32),
    )
}

/// Adds a space and a number of mm/s as km/s.
fn push_kilometres_a_second(text: &mut Vec<u8>, millimetres_a_second: i64) -> Result<(), AllocError>
    ensures { OnOk result (text.new.items ≡ text.old.items ++ codes " " ++ kilometres_a_second millimetres_a_second) }
{
    let size = millimetres_a_second.unsigned_abs();
    push_decimal(
        text,
        sign(millimetres_a_second),
        size / 1_000_000,
        &six((size % 1_000_000) as u32),
    )
}

/// Adds a space, a sign, a whole number, and the digits behind its point.
fn push_decimal(
    text: &mut Vec<u8>,
    sign: &[u8],
    whole: u64,
    digits: &[u8],
) -> Result<(), AllocError>
    ensures { OnOk result (text.new.items ≡ text.old.items ++ codes " " ++ (sign.now ++ decimal whole ++ codes "." ++ digits.now)) }
{
    text.push(b' ')?;
    text.extend_from_slice(sign)?;
    text.extend_from_slice(Buffer::new().format(whole).as_bytes())?;
    text.push(b'.')?;
    text.extend_from_slice(digits)
}

fn sign(number: i64) -> &'static [u8]
    ensures { result.now ≡ spec.sign number }
{
    if number < 0 { b"-" } else { b"" }
}

/// The last six digits of a number.
fn six(number: u32) -> [u8; 6]
    ensures { result ≡ written.six number }
{
    let [d1, d2] = two(number / 10_000);
    let [d3, d4] = two(number / 100);
    let [d5, d6] = two(number);
    [d1, d2, d3, d4, d5, d6]
}

/// The last five.
pub(crate) fn five(number: u32) -> [u8; 5]
    ensures { result ≡ spec.five number }
{
    let [d1, d2, d3] = three(number / 100);
    let [d4, d5] = two(number);
    [d1, d2, d3, d4, d5]
}

/// The last three.
fn three(number: u32) -> [u8; 3]
    ensures { result ≡ spec.three number }
{
    let [d2, d3] = two(number);
    [b'0' + (number / 100 % 10) as u8, d2, d3]
}

/// The last two.
fn two(number: u32) -> [u8; 2]
    ensures { result ≡ written.two number }
{
    [b'0' + (number / 10 % 10) as u8, b'0' + (number % 10) as u8]
}
