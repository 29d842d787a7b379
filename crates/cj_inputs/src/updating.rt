ghost use Rattle.std.specs.Prelude.{◌≡◌};

use cj_case::Problem;

/// A problem before updates, and the problem after them: for one window and threshold.
#[derive(Debug, Drop)]
pub struct Updating {
    pub base: Problem,
    pub new: Problem,
    pub ghost first: { base.window.first.micros ≡ new.window.first.micros },
    pub ghost last: { base.window.last.micros ≡ new.window.last.micros },
    pub ghost threshold: { base.threshold ≡ new.threshold },
}
