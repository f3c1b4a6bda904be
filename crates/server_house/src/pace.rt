//! How fast a peer sends, where it has to send so much a second.

ghost use Rattle.std.specs.Int.NonZero.{non_zero_u64_get};
ghost use Rattle.std.specs.Prelude.{◌≡◌, ◌↔◌, ◌<◌, ◌≤◌, ◌+◌, ◌*◌, ◌/◌, ◌-◌, ◌^◌, IsTrue, min};

use std::num::NonZeroU64;

/// The time waited for a peer after which its pace is judged, in milliseconds.
const JUDGED_AFTER_MS: u64 = 60_000;

/// Whether a peer is too slow that sent `octets` octets in `seconds` seconds for which it was waited
/// for, where it has to send `slowest` a second.
fn is_too_slow(octets: u64, slowest: NonZeroU64, seconds: u64) -> bool
    ensures { IsTrue result ↔ octets < min (non_zero_u64_get slowest * seconds) (2 ^ 64 - 1) }
{
    octets < slowest.get().saturating_mul(seconds)
}

/// What came of a peer since its pace was judged last, and for how long its reads waited.
#[derive(Clone, Copy, Debug, PartialEq, Eq)]
pub(crate) struct Pace {
    waited_ms: u64,
    octets: u64,
}

impl Pace {
    /// Nothing came, and nobody waited.
    pub(crate) const NONE: Pace = Pace {
        waited_ms: 0,
        octets: 0,
    };

    /// One more read waited for N milliseconds, and this many octets came by it.
    pub(crate) fn and(self, waited_ms: u64, octets: u64) -> Pace
        ensures waited { result.waited_ms ≡ min (self.waited_ms + waited_ms) (2 ^ 64 - 1) }
        ensures octets { result.octets ≡ min (self.octets + octets) (2 ^ 64 - 1) }
    {
        Pace {
            waited_ms: self.waited_ms.saturating_add(waited_ms),
            octets: self.octets.saturating_add(octets),
        }
    }

    /// Whether it is to be judged: its reads waited for a minute.
    fn is_due(self) -> bool
        ensures { IsTrue result ↔ 60_000 ≤ self.waited_ms }
    {
        self.waited_ms >= JUDGED_AFTER_MS
    }

    /// Whether it is to be judged, and less came than `slowest` octets a second.
    pub(crate) fn is_slow(self, slowest: NonZeroU64) -> bool
        ensures { IsTrue result ↔ (60_000 ≤ self.waited_ms)
            × (self.octets < min (non_zero_u64_get slowest * (self.waited_ms / 1_000)) (2 ^ 64 - 1)) }
    {
        self.is_due() && is_too_slow(self.octets, slowest, self.waited_ms / 1_000)
    }

    /// What counts on once it was looked at: nothing of what was judged.
    pub(crate) fn looked_at(self) -> Pace
        ensures waited { 60_000 ≤ self.waited_ms → result.waited_ms ≡ 0 }
        ensures octets { 60_000 ≤ self.waited_ms → result.octets ≡ 0 }
        ensures same { self.waited_ms < 60_000 → result ≡ self }
    {
        if self.is_due() { Pace::NONE } else { self }
    }
}
