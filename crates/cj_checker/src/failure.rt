ghost use Rattle.std.specs.Prelude.{◌≡◌};
ghost use Rattle.cj_checker.specs.First.{failed as a_failure};

use cj_formats::CheckCause;
use cj_kvn::LineFault;

/// The first line at which a certificate is not accepted, counted from 1, and why.
pub type Failure = LineFault<CheckCause>;

pub(crate) fn failed(line: u32, cause: CheckCause) -> Option<Failure>
    ensures { result ≡ a_failure line cause }
{
    Some(Failure { line, cause })
}

/// The first line behind the header.
pub(crate) const FIRST_LINE: u32 = 5;
