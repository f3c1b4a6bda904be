//! Printers with a page of which nothing goes: since when, and why.
//!
//! ```text
//!            it isn't reached, or takes nothing              a minute later, and at times again
//!   nothing ------------------------------------> delayed ---------------------------------------> told
//!      ^                                             |                                              |
//!      +------------- an octet of the page goes, or its job is left ------------------------------+
//! ```

ghost use Rattle.std.specs.Prelude.{◌≡◌, ◌↔◌, ◌<◌, ◌≤◌, ◌+◌, ◌-◌, ◌^◌, None, IsTrue, MatchOption, Some, min};
ghost use Rattle.server_notes.specs.Standing.{minutes_until, shown_after};

use crate::standstills::minutes_until;
use std::alloc::{AllocError, Global};
use std::fmt;
use std::io::Error;
use std::rt::Clock;
use std::sync::{Mutex, Wait};
use std::time::Instant;

/// Why nothing of a printer's page goes.
#[derive(Clone, Copy)]
pub enum DelayCause {
    /// It isn't reached, for this reason.
    Unreached(Error),
    /// It takes nothing.
    TakesNothing,
}

impl fmt::Display for DelayCause {
    fn fmt<W: fmt::Write>(&self, f: &mut fmt::Formatter<W>) -> fmt::Result {
        match self {
            DelayCause::Unreached(error) => write!(f, "{error}"),
            DelayCause::TakesNothing => f.write_str("it takes nothing"),
        }
    }
}

/// Since when nothing of a printer's page goes, and why.
#[derive(Clone, Copy)]
pub struct Delay {
    /// Since when.
    pub since: Instant,
    /// Why.
    pub cause: DelayCause,
    // How often it was told.
    told: u32,
}

/// From how many seconds on it is shown: at once where a printer isn't reached, and after a minute where it takes nothing.
fn shown_after(cause: DelayCause) -> u64
    ensures { result ≡ shown_after cause }
{
    match cause {
        DelayCause::Unreached(_) => 0,
        DelayCause::TakesNothing => 60,
    }
}

impl Delay {
    /// Whether it is shown, after this many seconds.
    pub fn is_shown(&self, seconds: u64) -> bool
        ensures { IsTrue result ↔ shown_after self.now.cause ≤ seconds }
    {
        shown_after(self.cause) <= seconds
    }

    /// What it is once it is noted at a moment, for a cause: since then, where nothing was noted before.
    fn noted(before: Option<Delay>, cause: DelayCause, now: Instant) -> Delay
        ensures cause { result.cause ≡ cause }
        ensures begins { before ≡ None → (result.since ≡ now) × (result.told ≡ 0) }
        ensures goes_on { (delay : _) → before ≡ Some delay
            → (result.since ≡ delay.since) × (result.told ≡ delay.told) }
    {
        match before {
            Some(delay) => Delay { cause, ..delay },
            None => Delay {
                since: now,
                cause,
                told: 0,
            },
        }
    }

    /// What it is once it was told, where it is due to be after so many minutes.
    fn told_when_due(self, minutes: u64) -> Option<Delay>
        ensures { MatchOption result (minutes < minutes_until self.told)
            (λ again. (minutes_until self.told ≤ minutes)
            × (again.told ≡ min (self.told + 1) (2 ^ 32 - 1))
            × (again.since ≡ self.since) × (again.cause ≡ self.cause)) }
    {
        if !self.is_due(minutes) {
            return None;
        }
        let told = self.told.saturating_add(1);
        Some(Delay { told, ..self })
    }

    /// Whether it is due to be told, after this many minutes.
    fn is_due(&self, minutes: u64) -> bool
        ensures { IsTrue result ↔ minutes_until self.now.told ≤ minutes }
    {
        minutes_until(self.told) <= minutes
    }
}

/// The printers of a server with a page of which nothing goes, by their numbers.
#[derive(Drop)]
pub struct Delays {
    printers: Vec<Mutex<Option<Delay>>>,
}

impl Delays {
    /// None of N printers has such a page. An error where memory is refused.
    pub fn new(alloc: Global, printers: u32) -> Result<Delays, AllocError> {
        let mut places = Vec::new(alloc);
        for _printer in 0..printers {
            places.push(Mutex::new(None))?;
        }
        Ok(Delays { printers: places })
    }

    /// The place of a printer, which are numbered from 1.
    fn place(&self, printer: u32) -> Option<&Mutex<Option<Delay>>> {
        self.printers.get((printer as usize).checked_sub(1)?)
    }

    /// Nothing of a printer's page goes, for this cause: since now, where it went before. Answers for how many minutes nothing goes, where
    /// that is due to be told: after 1, after 10, and then each 60. It counts as told from then on.
    pub fn note<R: Clock + Wait>(&self, rt: &R, printer: u32, cause: DelayCause) -> Option<u64> {
        let now = Instant::now(rt).ok()?;
        let mut place = self.place(printer)?.lock(rt);
        let delay = Delay::noted(*place, cause, now);
        let minutes = now.saturating_duration_since(delay.since).as_secs() / 60;
        let told = delay.told_when_due(minutes);
        *place = Some(told.unwrap_or(delay));
        told.map(|_| minutes)
    }

    /// An octet of a printer's page has gone, or its job was left.
    pub fn end<R: Wait>(&self, rt: &R, printer: u32) {
        if let Some(place) = self.place(printer) {
            *place.lock(rt) = None;
        }
    }

    /// Since when nothing of a printer's page goes, where that is so.
    pub fn of<R: Wait>(&self, rt: &R, printer: u32) -> Option<Delay> {
        *self.place(printer)?.lock(rt)
    }
}
