//! The lines of primaries.
ghost use Rattle.std.specs.Prelude.{◌≡◌, ◌+◌, ◌==◌, ◌^◌, ◌<◌, length};
ghost use Rattle.cj_formats.specs.declared.check_cause.CheckCause.TheVariants.{PrimaryOf};
ghost use Rattle.cj_checker.specs.First.{failed as a_failure, first_unfit, fits_at};

use cj_checker::Failure;
use cj_formats::CheckCause;

/// A line of a primary that fails.
fn failed(line: u32) -> Option<Failure>
    ensures { result ≡ a_failure line PrimaryOf }
{
    Some(Failure {
        line,
        cause: CheckCause::PrimaryOf,
    })
}

/// Whether a line has the primary in its place.
fn is_primary_line(named: &[u32], place: u32, line: u32) -> bool
    ensures { result ≡ fits_at (λ object number. object == number) named.now place line }
{
    match named.get(place as usize) {
        None => false,
        Some(object) => *object == line,
    }
}

/// The first line that does not have the primary in its place, where the first of them is at a line. Lines that are missing or left are
/// found at the line behind.
pub(crate) fn unfit_primary(named: &[u32], first: u32, lines: &[u32]) -> Option<Failure>
    requires few { first + length lines.now < 2 ^ 32 }
    ensures { result ≡ first_unfit (λ object number. object == number) PrimaryOf first named.now lines.now }
{
    let mut place = 0;
    for line in lines {
        if !is_primary_line(named, place, *line) {
            return failed(first + place);
        }
        place += 1;
    }
    if (place as usize) < named.len() {
        return failed(first + place);
    }
    None
}
