ghost use Rattle.std.specs.Prelude.{◌≡◌, ◌*◌, ◌≤◌, ◌<◌, ◌^◌, length};
ghost use Rattle.cj_base.specs.Bounds.{MOST_OBJECTS};
ghost use Rattle.cj_case.specs.CaseLimits.{IsShort, AreFewSlots};
ghost use Rattle.cj_case.specs.Primaries.{marks_of};

use crate::pair::Pair;
use crate::primaries::Primaries;
use crate::sizes::Sizes;
use crate::thresholds::threshold_between;
use crate::tracks::Tracks;
use cj_base::Window;

/// What a run is asked: its tracks, which have one frame and few nodes, its window, its threshold in nm, the sizes of its objects, and
/// which of these are primaries.
#[derive(Debug, Drop)]
pub struct Problem {
    pub tracks: Tracks,
    pub window: Window,
    /// From 10^9 to 10^15 nm.
    pub threshold: u64,
    /// One size for each track.
    pub sizes: Sizes,
    /// A mark for each track, where primaries are named.
    pub primaries: Primaries,
    pub ghost few: { length tracks ≤ MOST_OBJECTS },
    pub ghost short: { IsShort window.first.micros window.last.micros },
    pub ghost few_slots: { AreFewSlots (length tracks) window.first.micros window.last.micros },
    pub ghost least: { 10 ^ 9 ≤ threshold },
    pub ghost most: { threshold ≤ 10 ^ 15 },
    pub ghost sized: { length sizes ≡ length tracks },
    pub ghost marked: { marks_of primaries (length tracks) ≡ length tracks },
}

impl Problem {
    ghost use Rattle.cj_case.specs.PlainProblems.{threshold_of};
    ghost use Rattle.cj_case.specs.Problems.{plain_problem};

    /// The threshold of a pair in nm: that of the run and the sizes of both objects.
    pub fn pair_threshold(&self, pair: Pair) -> u64
        requires { pair.b < length self.now.tracks }
        ensures value { result ≡ threshold_of (plain_problem self.now) pair.a pair.b }
        ensures least { 10 ^ 9 ≤ result }
        ensures most { result ≤ 1002 * 10 ^ 12 }
    {
        threshold_between(self.sizes.as_slice(), self.threshold, pair)
    }
}
