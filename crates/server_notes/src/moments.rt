//! How much time has passed.

ghost use Rattle.std.specs.Prelude.{◌≡◌, ◌-◌, ◌^◌, min};

use std::rt::Clock;
use std::time::{Duration, Instant};

/// A time in milliseconds, as far as 64 bits count.
pub fn milliseconds(time: Duration) -> u64 {
    u64::try_from(time.as_millis()).unwrap_or(u64::MAX)
}

/// How many milliseconds lie between two moments; none where the second isn't the later one.
pub fn milliseconds_between(start: Instant, end: Instant) -> u64 {
    milliseconds(end.saturating_duration_since(start))
}

/// How many milliseconds have passed since; none where the clock can't be read.
pub fn milliseconds_since<R: Clock>(rt: &R, start: Instant) -> u64 {
    match start.elapsed(rt) {
        Ok(elapsed) => milliseconds(elapsed),
        Err(_) => 0,
    }
}
