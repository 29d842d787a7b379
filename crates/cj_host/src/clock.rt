use cj_base::Tick;
use std::time::{SystemTime, UNIX_EPOCH};

/// The clock's microsecond: the nearest tick, or the first one where the clock cannot be read.
pub fn now(rt: &HostRuntime) -> Tick {
    let Ok(time) = SystemTime::now(rt) else {
        return Tick::FIRST;
    };
    let Ok(since_1970) = time.duration_since(UNIX_EPOCH) else {
        return Tick::FIRST;
    };
    Tick::nearest(u64::try_from(since_1970.as_micros()).unwrap_or(u64::MAX))
}
