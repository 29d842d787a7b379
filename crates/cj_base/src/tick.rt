ghost use Rattle.std.specs.Prelude.{◌≡◌, ◌+◌, ◌-◌, ◌<◌, ◌≤◌, ◌↔◌, max, min, IsTrue, IfSome, IfNone};
ghost use Rattle.cj_base.specs.Ticks.{IsTick, FIRST_TICK, LAST_TICK};

/// The microseconds of a second.
pub const SECOND: u64 = 1_000_000;

/// The microseconds of a minute.
pub const MINUTE: u64 = 60 * SECOND;

/// The microseconds of an hour.
pub const HOUR: u64 = 60 * MINUTE;

/// The microseconds of a day.
pub const DAY: u64 = 24 * HOUR;

/// A whole number of microseconds since 1970-01-01T00:00:00 UTC, in the years from 1972 to 2099. Every day has 86,400,000,000
/// of them.
#[derive(Clone, Copy, Debug, PartialEq, Eq, PartialOrd, Ord, Hash)]
pub struct Tick {
    pub micros: u64,
    pub ghost in_range: { IsTick micros },
}

impl Tick {
    /// 1972-01-01T00:00:00.
    pub const FIRST: Tick = Tick {
        micros: 63_072_000_000_000,
    };

    /// 2099-12-31T23:59:59.999999.
    pub const LAST: Tick = Tick {
        micros: 4_102_444_799_999_999,
    };

    /// The tick of that many microseconds, if there is one.
    pub fn new(micros: u64) -> Option<Tick>
        ensures found { IfSome result (λ t. t.micros ≡ micros) }
        ensures none { IfNone result (¬ (IsTick micros)) }
    {
        if Tick::FIRST.micros <= micros && micros <= Tick::LAST.micros {
            Some(Tick { micros })
        } else {
            None
        }
    }

    /// The nearest tick.
    pub fn nearest(micros: u64) -> Tick
        ensures same { IsTick micros → result.micros ≡ micros }
        ensures early { micros ≤ FIRST_TICK → result.micros ≡ FIRST_TICK }
        ensures late { LAST_TICK ≤ micros → result.micros ≡ LAST_TICK }
    {
        Tick {
            micros: micros.clamp(Tick::FIRST.micros, Tick::LAST.micros),
        }
    }

    /// The microseconds from an earlier tick to this one.
    pub fn since(self, earlier: Tick) -> u64
        requires { earlier.micros ≤ self.micros }
        ensures { result + earlier.micros ≡ self.micros }
    {
        self.micros - earlier.micros
    }

    /// The later of two ticks.
    pub fn later(self, other: Tick) -> Tick
        ensures { result.micros ≡ max self.micros other.micros }
    {
        if self.micros < other.micros {
            other
        } else {
            self
        }
    }

    /// The earlier of two ticks.
    pub fn earlier(self, other: Tick) -> Tick
        ensures { result.micros ≡ min self.micros other.micros }
    {
        if other.micros < self.micros {
            other
        } else {
            self
        }
    }

    /// The tick after one that is not the last of all.
    pub fn next(self) -> Tick
        requires { self.micros < LAST_TICK }
        ensures { result.micros ≡ self.micros + 1 }
    {
        Tick {
            micros: self.micros + 1,
        }
    }
}

/// The ticks from the first to the last, both included, and none where the first is later.
#[derive(Clone, Copy, Debug, PartialEq, Eq)]
pub struct Window {
    pub first: Tick,
    pub last: Tick,
}

impl Window {
    /// Whether the tick lies in the window.
    pub fn contains(self, at: Tick) -> bool
        ensures { IsTrue result ↔ (self.first.micros ≤ at.micros × at.micros ≤ self.last.micros) }
    {
        self.first <= at && at <= self.last
    }

    /// How many ticks the window has.
    pub fn ticks(self) -> u64
        ensures { result ≡ self.last.micros + 1 - self.first.micros }
    {
        (self.last.micros + 1).saturating_sub(self.first.micros)
    }
}
