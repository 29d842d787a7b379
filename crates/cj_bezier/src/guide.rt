use cj_hermite::Hint;
use cj_interval::Divisor;

/// Where to look for the next part of a track: where the last one was found, and how long its piece is.
#[derive(Clone, Copy, Debug)]
pub struct Guide {
    pub(crate) hint: Hint,
    pub(crate) divisor: Divisor,
}

impl Guide {
    /// Before anything was found.
    pub fn new() -> Self {
        Guide {
            hint: Hint::default(),
            divisor: Divisor::new(1),
        }
    }
}
