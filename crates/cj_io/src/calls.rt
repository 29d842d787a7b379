ghost use Rattle.std.specs.Prelude.{◌≡◌};
ghost use Rattle.cj_io.specs.Calls.{fails_next, after_call};

use std::marker::Model;

/// The calls of an object in memory: the numbers of those that fail, how many were made, and how many failed.
#[derive(Debug, Drop)]
pub struct Calls {
    failing: Vec<u64>,
    made: u64,
    faults: u64,
}

impl Model for Calls {
    ghost use Rattle.cj_io.specs.Calls.{Calls};

    ghost Value = { Calls };

    ghost view = { λ c. record { failing = c.failing.items; made = c.made; faults = c.faults } };
}

impl Calls {
    pub fn new(failing: Vec<u64>) -> Self
        ensures { result ≡ record { failing = failing.items; made = 0; faults = 0 } }
    {
        Calls {
            failing,
            made: 0,
            faults: 0,
        }
    }

    /// Whether the next call fails.
    pub fn fails_next(&self) -> bool
        ensures { result ≡ fails_next self.now }
    {
        self.failing.contains(&self.made.saturating_add(1))
    }

    /// Counts one more call, and tells whether it fails.
    pub fn next_fails(&mut self) -> bool
        ensures fails { result ≡ fails_next self.old }
        ensures counted { self.new ≡ after_call self.old }
    {
        let fails = self.fails_next();
        self.made = self.made.saturating_add(1);
        if fails {
            self.faults = self.faults.saturating_add(1);
        }
        fails
    }

    /// How many calls were made, up to the greatest value of a `u64`.
    pub fn made(&self) -> u64
        ensures { result ≡ self.now.made }
    {
        self.made
    }
}
