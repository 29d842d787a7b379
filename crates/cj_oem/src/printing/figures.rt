//! Places and rates as numbers of km and km/s.
ghost use Rattle.std.specs.Prelude.{◌≡◌, ◌-◌, ◌^◌, ◌<◌, ◌≤◌, [], ◌∷◌, ◌++◌, if◌then◌else◌, length, decimal, pos, int_lt, OnOk};
ghost use Rattle.std.specs.List.{repeat};
ghost use Rattle.cj_oem.specs.Canonical.{figure_text, vector_text};

use cj_track::Vec3;
use std::alloc::AllocError;

/// The nm of a km.
const KILOMETRE: u64 = 1_000_000_000_000;

/// Adds the three numbers of a place or a rate, with a space between.
pub(crate) fn push_vector(text: &mut Vec<u8>, vector: Vec3) -> Result<(), AllocError>
    ensures { OnOk result (text.new.items ≡ text.old.items ++ vector_text vector) }
{
    push_figure(text, vector.x)?;
    text.push(b' ')?;
    push_figure(text, vector.y)?;
    text.push(b' ')?;
    push_figure(text, vector.z)
}

/// Adds a number of nm as km with twelve decimals, or one of nm/s as km/s.
#[tactic(auto, unfolding(crate::specs::Canonical::figure_text))]
fn push_figure(text: &mut Vec<u8>, figure: i64) -> Result<(), AllocError>
    ensures { OnOk result (text.new.items ≡ text.old.items ++ figure_text figure) }
{
    let size = figure.unsigned_abs();
    text.extend_from_slice(sign(figure))?;
    push_number(text, size / KILOMETRE)?;
    text.push(b'.')?;
    push_digits(text, size % KILOMETRE, 12)
}

fn sign(figure: i64) -> &'static [u8]
    ensures { result.now ≡ (if int_lt figure (pos 0) then 45 ∷ [] else []) }
{
    if figure < 0 { b"-" } else { b"" }
}

/// Adds a number in decimal.
fn push_number(text: &mut Vec<u8>, number: u64) -> Result<(), AllocError>
    ensures { OnOk result (text.new.items ≡ text.old.items ++ decimal number) }
{
    if number >= 10 {
        push_number(text, number / 10)?;
    }
    text.push(b'0' + (number % 10) as u8)?;
    Ok(())
}

/// Adds a number in decimal with so many digits, zeros in front.
fn push_digits(text: &mut Vec<u8>, number: u64, count: u32) -> Result<(), AllocError>
    requires some { 1 ≤ count }
    requires short { number < 10 ^ count }
    ensures { OnOk result (text.new.items ≡ text.old.items
        ++ (repeat (count - length (decimal number)) (48 ∷ []) ++ decimal number)) }
{
    if count > 1 {
        push_digits(text, number / 10, count - 1)?;
    }
    text.push(b'0' + (number % 10) as u8)?;
    Ok(())
}
