//! Numbers as values of options.
ghost use Rattle.std.specs.Prelude.{◌≡◌, ◌≤◌, Option, IfSome};
ghost use Rattle.std.specs.Option.{option_copied};
ghost use Rattle.cj_words.specs.Settings as spec;

use crate::digits::read_number;
use crate::option::{Opt, UsageFault};
use cj_formats::{CertFormat, CertVersion};

/// What is wrong where the value of the option is out of its range.
pub fn out_of_range(option: Opt) -> UsageFault
    ensures { result ≡ UsageFault.Value option }
{
    UsageFault::Value { option }
}

/// The number that a value says, from the least up to the greatest, or the one that stands for a value that is left out.
pub fn number_or(value: Option<&[u8]>, least: u64, greatest: u64, left_out: u64) -> Option<u64>
    requires some { least ≤ left_out }
    requires most { left_out ≤ greatest }
    ensures value { result ≡ spec.number_or least greatest left_out (option_copied value.entry) }
    ensures some { IfSome result (λ n. least ≤ n) }
    ensures most { IfSome result (λ n. n ≤ greatest) }
{
    match value {
        None => Some(left_out),
        Some(text) => number_in(text, least, greatest),
    }
}

/// How a certificate is written: in the version whose number a value says, which is version 1 where the value is left out; or in brief, where
/// that is asked and no version is.
pub fn format_or(value: Option<&[u8]>, brief: bool) -> Option<CertFormat>
    ensures { result ≡ spec.format_or brief (option_copied value.entry) }
{
    match (brief, value) {
        (false, value) => Some(CertFormat::Full(version_or(value, CertVersion::One)?)),
        (true, None) => Some(CertFormat::Brief),
        (true, Some(_)) => None,
    }
}

/// The version whose number a value says, or the one that stands for a value that is left out.
fn version_or(value: Option<&[u8]>, left_out: CertVersion) -> Option<CertVersion>
    ensures { result ≡ spec.version_or left_out (option_copied value.entry) }
{
    match value {
        None => Some(left_out),
        Some(text) => CertVersion::from_number(number_in(text, 0, u64::MAX)?),
    }
}

fn number_in(text: &[u8], least: u64, greatest: u64) -> Option<u64>
    ensures value { result ≡ spec.number_in least greatest text.now }
    ensures some { IfSome result (λ n. least ≤ n) }
    ensures most { IfSome result (λ n. n ≤ greatest) }
{
    match read_number(text) {
        Some(number) if u128::from(least) <= number && number <= u128::from(greatest) => {
            Some(number as u64)
        }
        _ => None,
    }
}
