//! Which segments lie within two times.

ghost use Rattle.std.specs.Prelude.{◌≡◌, ◌↔◌, false, IsTrue, MatchOption};
ghost use Rattle.segment_text.specs.Times as T;

use segment_text::{Origin, is_before};

/// Whether a segment lies within two times: its last entry is not before `since`, and its first not after `until`. Entries have no times,
/// since the spool has no clock and no promise speaks of time: so a segment counts whole. Times are in UTC, as `2026-11-26T22:00:00Z`.
pub fn is_within(origin: &Origin, since: Option<&[u8]>, until: Option<&[u8]>) -> bool
    ensures { IsTrue result
        ↔ (MatchOption since.entry (Unit {0}) (λ s. T.is_before origin.now.last s.now ≡ false)
        × MatchOption until.entry (Unit {0}) (λ u. T.is_before u.now origin.now.first ≡ false)) }
{
    let is_early = match since {
        Some(since) => is_before(origin.last.as_slice(), since),
        None => false,
    };
    let is_late = match until {
        Some(until) => is_before(until, origin.first.as_slice()),
        None => false,
    };
    !is_early && !is_late
}
