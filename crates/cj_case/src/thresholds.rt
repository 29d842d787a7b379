//! The threshold of a pair, and how near to it a distance may be undecided.
ghost use Rattle.std.specs.Prelude.{◌≡◌, ◌*◌, ◌^◌, ◌<◌, ◌≤◌, All, length};
ghost use Rattle.cj_case.specs.CaseLimits.{MAX_SIZE};
ghost use Rattle.cj_case.specs.PlainProblems as spec;

use crate::pair::Pair;

/// One millimetre, in nm: so near to its threshold a distance may be undecided.
pub const BAND: u64 = 1_000_000;

/// A threshold in nm between two objects with these sizes: so far beyond both radii.
pub fn threshold_between(sizes: &[u64], thr: u64, pair: Pair) -> u64
    requires exists { pair.b < length sizes.now }
    requires small { All (λ size. size ≤ MAX_SIZE) sizes.now }
    requires within { thr ≤ 10 ^ 15 }
    ensures value { result ≡ spec.threshold_between thr sizes.now pair.a pair.b }
    ensures least { thr ≤ result }
    ensures most { result ≤ 1002 * 10 ^ 12 }
{
    thr + sizes[pair.a as usize] + sizes[pair.b as usize]
}
