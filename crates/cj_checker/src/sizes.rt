//! The lines of sizes.
ghost use Rattle.std.specs.Prelude.{◌≡◌, ◌+◌, ◌-◌, ◌^◌, ◌<◌, length, vec_len};
ghost use Rattle.std.specs.List.{enumerate_from};
ghost use Rattle.cj_case.specs.Problems.{plain_problem};
ghost use Rattle.cj_cert.specs.Certificates.{plain_certificate};
ghost use Rattle.cj_formats.specs.declared.check_cause.CheckCause.TheVariants.{SizeOf};
ghost use Rattle.cj_checker.specs.First.{first_line, first_unfit, fits_at, size_failure as the_failure};
ghost use Rattle.cj_checker.specs.Tests.{is_size_line as the_test};

use crate::failure::{FIRST_LINE, Failure, failed};
use cj_case::Problem;
use cj_cert::{Certificate, SizeOfLine};
use cj_formats::{CertVersion, CheckCause};

/// In version 2, the first line that is not the size of the object in its place. Lines that are missing or left are found at the
/// line behind.
pub fn size_failure(problem: &Problem, cert: &Certificate) -> Option<Failure>
    requires few { vec_len cert.now.sizes < 2 ^ 32 - 5 }
    ensures { result ≡ the_failure (plain_problem problem.now) (plain_certificate cert.now) }
{
    match cert.version {
        CertVersion::One => None,
        CertVersion::Two => unfit_size(problem.sizes.as_slice(), &cert.sizes),
    }
}

/// The first line that is not the size of the object in its place.
pub fn unfit_size(sizes: &[u64], lines: &[SizeOfLine]) -> Option<Failure>
    requires few { length lines.now < 2 ^ 32 - 5 }
    ensures { result ≡ first_unfit the_test SizeOf first_line (enumerate_from 0 sizes.now) lines.now }
{
    let mut object = 0;
    for line in lines {
        if !is_size_line(sizes, object, *line) {
            return failed(FIRST_LINE + object, CheckCause::SizeOf);
        }
        object += 1;
    }
    if (object as usize) < sizes.len() {
        return failed(FIRST_LINE + object, CheckCause::SizeOf);
    }
    None
}

/// Whether a line has the size of this object.
fn is_size_line(sizes: &[u64], object: u32, line: SizeOfLine) -> bool
    ensures { result ≡ fits_at the_test (enumerate_from 0 sizes.now) object line }
{
    match sizes.get(object as usize) {
        None => false,
        Some(size) => line.object == object && line.size == *size,
    }
}
