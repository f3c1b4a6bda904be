//! Printers that stand still: since when, and why.

ghost use Rattle.std.specs.Prelude.{◌≡◌, ◌↔◌, ◌<◌, ◌≤◌, ◌+◌, ◌-◌, ◌^◌, IsTrue, MatchOption, min};
ghost use Rattle.server_notes.specs.Standing.{minutes_until};

use std::alloc::{AllocError, Global};
use std::io::Error;
use std::rt::Clock;
use std::sync::{Mutex, Wait};
use std::time::Instant;

/// Since when a printer stands still, and why.
#[derive(Clone, Copy)]
pub struct Standstill {
    pub since: Instant,
    /// Why its page wasn't written, where that is known.
    pub cause: Option<Error>,
    // How often it was told again since.
    told: u32,
}

/// After how many minutes it is told again that a printer stands still, which was told N times: after 1, after 10, and then each 60.
pub(crate) fn minutes_until(told: u32) -> u64
    ensures { result ≡ minutes_until told }
{
    match told {
        0 => 1,
        1 => 10,
        _ => 60 * (u64::from(told) - 1),
    }
}

impl Standstill {
    /// Whether it is due to be told again, after so many minutes.
    fn is_due(&self, minutes: u64) -> bool
        ensures { IsTrue result ↔ minutes_until self.now.told ≤ minutes }
    {
        minutes_until(self.told) <= minutes
    }

    /// What it is once it was told, where it is due to be after so many minutes.
    fn told_when_due(self, minutes: u64) -> Option<Standstill>
        ensures { MatchOption result (minutes < minutes_until self.told)
            (λ again. (minutes_until self.told ≤ minutes)
            × (again.told ≡ min (self.told + 1) (2 ^ 32 - 1))
            × (again.since ≡ self.since) × (again.cause ≡ self.cause)) }
    {
        if !self.is_due(minutes) {
            return None;
        }
        let told = self.told.saturating_add(1);
        Some(Standstill { told, ..self })
    }
}

/// The printers of a server that stand still, by their numbers.
#[derive(Drop)]
pub struct Standstills {
    printers: Vec<Mutex<Option<Standstill>>>,
}

impl Standstills {
    /// None of N printers stands still. An error where memory is refused.
    pub fn new(alloc: Global, printers: u32) -> Result<Standstills, AllocError> {
        let mut places = Vec::new(alloc);
        for _printer in 0..printers {
            places.push(Mutex::new(None))?;
        }
        Ok(Standstills { printers: places })
    }

    /// The place of a printer, which are numbered from 1.
    fn place(&self, printer: u32) -> Option<&Mutex<Option<Standstill>>> {
        self.printers.get((printer as usize).checked_sub(1)?)
    }

    /// A page wasn't written at a printer: it stands still from now on.
    pub fn begin<R: Clock + Wait>(&self, rt: &R, printer: u32, cause: Option<Error>) {
        let (Some(place), Ok(since)) = (self.place(printer), Instant::now(rt)) else {
            return;
        };
        let told = 0;
        *place.lock(rt) = Some(Standstill { since, cause, told });
    }

    /// A printer goes on.
    pub fn end<R: Wait>(&self, rt: &R, printer: u32) {
        if let Some(place) = self.place(printer) {
            *place.lock(rt) = None;
        }
    }

    /// Since when a printer stands still, where that is known.
    pub fn of<R: Wait>(&self, rt: &R, printer: u32) -> Option<Standstill> {
        *self.place(printer)?.lock(rt)
    }

    /// Since when a printer stands still, where it is due to be told again. It counts as told from then on.
    pub fn take_due<R: Wait>(&self, rt: &R, printer: u32, now: Instant) -> Option<Standstill> {
        let mut place = self.place(printer)?.lock(rt);
        let standstill = (*place)?;
        let minutes = now.saturating_duration_since(standstill.since).as_secs() / 60;
        *place = Some(standstill.told_when_due(minutes)?);
        Some(standstill)
    }
}
