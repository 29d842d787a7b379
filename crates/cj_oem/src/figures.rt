//! The numbers of rows.
ghost use Rattle.std.specs.Prelude.{◌≡◌, ◌^◌, ◌<◌, ◌≤◌, length, IfOk};
ghost use Rattle.cj_base.specs.Decimals.{IsReadable, number_of};
ghost use Rattle.cj_kvn.specs.Decimals.{decimal_of};
ghost use Rattle.cj_kvn.specs.Faults.{Tells};
ghost use Rattle.cj_oem.specs.CovarianceRows.{number_or};
ghost use Rattle.cj_track.specs.Limits.{IsWithin};
ghost use Rattle.cj_oem.specs.NodeRows as spec;

use cj_base::Decimal;
use cj_formats::OemCause;
use cj_kvn::{NumFault, read_decimal, read_scaled};
use cj_track::Vec3;

/// Three numbers in units of 10^-12, each none where it is past every range.
#[derive(Clone, Copy)]
pub(crate) struct Figures {
    pub(crate) x: Option<i128>,
    pub(crate) y: Option<i128>,
    pub(crate) z: Option<i128>,
}

/// A number in units of 10^-12, none where it is past every range.
pub(crate) fn parse_figure(text: &[u8]) -> Result<Option<i128>, OemCause>
    requires { length text.now < 2 ^ 32 }
    ensures { result ≡ spec.parse_figure text.now }
{
    match read_scaled(text, 12) {
        Ok(figure) => Ok(Some(figure)),
        Err(NumFault::TooLarge) => Ok(None),
        Err(NumFault::NotNumber) => Err(OemCause::Number),
    }
}

/// The number, where it is at most so large in size.
pub(crate) fn within_or(limit: u64, cause: OemCause, figure: Option<i128>) -> Result<i64, OemCause>
    requires { limit < 2 ^ 63 }
    ensures value { result ≡ spec.within_or limit cause figure }
    ensures within { IfOk result (IsWithin limit) }
{
    match figure {
        Some(figure) if figure.unsigned_abs() <= u128::from(limit) => Ok(figure as i64),
        _ => Err(cause),
    }
}

/// The decimal of a field.
pub(crate) fn decimal_said(text: &[u8]) -> Result<Decimal, OemCause>
    requires { length text.now < 2 ^ 32 }
    ensures value { Tells number_of result (number_or (decimal_of text.now)) }
    ensures readable { IfOk result (λ d. IsReadable (number_of d)) }
{
    match read_decimal(text) {
        Ok(number) => Ok(number),
        Err(_) => Err(OemCause::Number),
    }
}

/// Whether a field is a decimal.
pub(crate) fn is_decimal(text: &[u8]) -> bool
    requires { length text.now < 2 ^ 32 }
    ensures { result ≡ spec.is_decimal text.now }
{
    read_decimal(text).is_ok()
}
