//! How much time has passed.

ghost use Rattle.std.specs.Int.NonZero.{non_zero_u64_get};
ghost use Rattle.std.specs.Prelude.{◌≡◌, ◌*◌, ◌-◌, ◌^◌, min};

use std::num::NonZeroU64;
use std::rt::Clock;
use std::time::Instant;

/// N seconds in milliseconds, as far as 64 bits count.
pub(crate) fn of_seconds(seconds: NonZeroU64) -> u64
    ensures { result ≡ min (non_zero_u64_get seconds * 1000) (2 ^ 64 - 1) }
{
    seconds.get().saturating_mul(1_000)
}

/// N minutes in milliseconds, as far as 64 bits count.
pub(crate) fn of_minutes(minutes: NonZeroU64) -> u64
    ensures { result ≡ min (non_zero_u64_get minutes * 60000) (2 ^ 64 - 1) }
{
    minutes.get().saturating_mul(60_000)
}

/// Now; None where the clock can't be read.
pub(crate) fn now<R: Clock>(rt: &R) -> Option<Instant> {
    Instant::now(rt).ok()
}

/// How many milliseconds have passed since; none where the clock can't be read, then or now.
pub(crate) fn milliseconds_since<R: Clock>(rt: &R, start: Option<Instant>) -> u64 {
    let elapsed = start.and_then(|start| start.elapsed(rt).ok());
    elapsed.map_or(
        0,
        |elapsed| u64::try_from(elapsed.as_millis()).unwrap_or(u64::MAX),
    )
}
