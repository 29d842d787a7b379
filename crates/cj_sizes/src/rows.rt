//! The row of a size.
ghost use Rattle.std.specs.Prelude.{◌≡◌, ◌≢◌, ◌∷◌, ◌^◌, ◌<◌, ◌≤◌, [], IfOk, IfSome, MatchOption, length};
ghost use Rattle.cj_kvn.specs.Fields.{fields};
ghost use Rattle.cj_kvn.specs.Ranges.{IsWithin, text_at};
ghost use Rattle.cj_sizes.specs.Limits.{MAX_RADIUS};
ghost use Rattle.cj_kvn.specs.Faults.{Tells};
ghost use Rattle.cj_sizes.specs.Readers.{row_of};
ghost use Rattle.cj_sizes.specs.Rows as spec;

use crate::row::Row;
use cj_formats::SizesCause;
use cj_kvn::{NumFault, Range32, field, read_scaled};

/// A kilometre in nm: the greatest radius.
const RADIUS_LIMIT: i128 = 1_000_000_000_000;

/// What the text of a row says.
///
/// # Errors
///
/// The first of these: `Form`, `Number`, `Range`.
pub(crate) fn row_said(bytes: &[u8], text: Range32) -> Result<Row<'_>, SizesCause>
    requires within { IsWithin bytes.now text }
    requires short { length bytes.now < 2 ^ 32 }
    ensures { Tells row_of result (spec.size_of_row (text_at bytes.now text)) }
{
    let Some((id, metres)) = two_fields(bytes, text) else {
        return Err(SizesCause::Form);
    };
    let radius = radius_said(metres.text(bytes))?;
    Ok(Row {
        id: id.text(bytes),
        radius,
    })
}

/// The fields of a row, where it has two.
fn two_fields(bytes: &[u8], text: Range32) -> Option<(Range32, Range32)>
    requires { IsWithin bytes.now text }
    ensures exact { MatchOption result (length (fields (text_at bytes.now text)) ≢ 2)
        (λ two. fields (text_at bytes.now text) ≡ text_at bytes.now two.0 ∷ text_at bytes.now two.1 ∷ []) }
    ensures within { IfSome result (λ two. IsWithin bytes.now two.0 × IsWithin bytes.now two.1) }
{
    let id = field(bytes, text, 0)?;
    let metres = field(bytes, text, 1)?;
    match field(bytes, text, 2) {
        None => Some((id, metres)),
        Some(_) => None,
    }
}

/// The radius in nm that a text says in metres.
fn radius_said(text: &[u8]) -> Result<u64, SizesCause>
    requires { length text.now < 2 ^ 32 }
    ensures value { result ≡ spec.radius_said text.now }
    ensures within { IfOk result (λ radius. radius ≤ MAX_RADIUS) }
{
    match read_scaled(text, 9) {
        Ok(radius) => radius_within(radius),
        Err(NumFault::TooLarge) => Err(SizesCause::Range),
        Err(NumFault::NotNumber) => Err(SizesCause::Number),
    }
}

/// A number of nm that may be a radius.
fn radius_within(radius: i128) -> Result<u64, SizesCause>
    ensures value { result ≡ spec.radius_within radius }
    ensures within { IfOk result (λ radius. radius ≤ MAX_RADIUS) }
{
    if 0 <= radius && radius <= RADIUS_LIMIT {
        Ok(radius as u64)
    } else {
        Err(SizesCause::Range)
    }
}
