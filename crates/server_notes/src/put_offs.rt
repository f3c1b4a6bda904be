//! Printers that aren't reached and have given their job back: when they are tried again.
//!
//! ```text
//!              its job is put back                    some seconds later
//!   reached ------------------------> waits until T ----------------------> tried again
//!      ^                                    ^                                  |  |
//!      |                                    +------- its job is put back ------+  |
//!      +------------------------- an octet of a job goes -------------------------+
//! ```
//!
//! The pauses are 5, 10, 20, 40, 60, 60 .. seconds.

ghost use Rattle.std.specs.Prelude.{◌≡◌, ◌≢◌, ◌+◌, ◌-◌, ◌^◌, None, Some, min};
ghost use Rattle.server_notes.specs.Standing.{pause_before};

use std::alloc::{AllocError, Global};
use std::rt::Clock;
use std::sync::{Mutex, Wait};
use std::time::{Duration, Instant};

/// The file of a job of which it isn't known when it was tried first: no file has this number.
const NO_FILE: u64 = 0;

/// How long a pause is, in seconds, before which so many have been: 5, 10, 20, 40, 60, 60 and so on.
pub fn pause_before_try(pauses: u32) -> u64
    ensures { result ≡ pause_before pauses }
{
    match pauses {
        0 => 5,
        1 => 10,
        2 => 20,
        3 => 40,
        _ => 60,
    }
}

/// A printer that was tried in vain.
#[derive(Clone, Copy)]
struct PutOff {
    /// The file of the job that it was tried with.
    file: u64,
    /// When it was tried with that first.
    first: Instant,
    /// How often it gave its job back since it was reached last.
    pauses: u32,
    /// When it is tried again, while it waits for that.
    due: Option<Instant>,
}

impl PutOff {
    /// What it is once it is tried with the job in this file, at a moment: since then, where that job wasn't tried before.
    fn tried(before: Option<PutOff>, file: u64, now: Instant) -> PutOff
        ensures file { result.file ≡ file }
        ensures due { result.due ≡ None }
        ensures begins { before ≡ None → (result.first ≡ now) × (result.pauses ≡ 0) }
        ensures same { (was : _) → before ≡ Some was → was.file ≡ file
            → (result.first ≡ was.first) × (result.pauses ≡ was.pauses) }
        ensures other { (was : _) → before ≡ Some was → was.file ≢ file
            → (result.first ≡ now) × (result.pauses ≡ was.pauses) }
    {
        let (first, pauses) = match before {
            Some(put_off) if put_off.file == file => (put_off.first, put_off.pauses),
            Some(put_off) => (now, put_off.pauses),
            None => (now, 0),
        };
        PutOff {
            file,
            first,
            pauses,
            due: None,
        }
    }

    /// What it is once it is tried again.
    fn again(self) -> PutOff
        ensures due { result.due ≡ None }
        ensures pauses { result.pauses ≡ self.pauses }
        ensures first { result.first ≡ self.first }
        ensures file { result.file ≡ self.file }
    {
        PutOff { due: None, ..self }
    }

    /// What it is once it gave its job back once more, until this moment.
    fn once_more(self, due: Option<Instant>) -> PutOff
        ensures pauses { result.pauses ≡ min (self.pauses + 1) (2 ^ 32 - 1) }
        ensures due { result.due ≡ due }
        ensures first { result.first ≡ self.first }
        ensures file { result.file ≡ self.file }
    {
        PutOff {
            pauses: self.pauses.saturating_add(1),
            due,
            ..self
        }
    }
}

/// The printers of a server that aren't reached, by their numbers, and what was told of them.
#[derive(Drop)]
pub struct PutOffs {
    printers: Vec<Mutex<Option<PutOff>>>,
}

impl PutOffs {
    /// None of N printers was tried in vain. An error where memory is refused.
    pub fn new(alloc: Global, printers: u32) -> Result<PutOffs, AllocError> {
        let mut places = Vec::new(alloc);
        for _printer in 0..printers {
            places.push(Mutex::new(None))?;
        }
        Ok(PutOffs { printers: places })
    }

    /// The place of a printer, which are numbered from 1.
    fn place(&self, printer: u32) -> Option<&Mutex<Option<PutOff>>> {
        self.printers.get((printer as usize).checked_sub(1)?)
    }

    /// A printer is tried with the job in this file. When it was tried with that first: now, where that is only now.
    pub fn first_try<R: Clock + Wait>(&self, rt: &R, printer: u32, file: u64) -> Option<Instant> {
        let now = Instant::now(rt).ok()?;
        let mut place = self.place(printer)?.lock(rt);
        let put_off = PutOff::tried(*place, file, now);
        *place = Some(put_off);
        Some(put_off.first)
    }

    /// A printer's job was put back. For how many seconds it isn't tried, where that is known.
    pub fn put_off<R: Clock + Wait>(&self, rt: &R, printer: u32) -> Option<u64> {
        let now = Instant::now(rt).ok()?;
        let mut place = self.place(printer)?.lock(rt);
        let put_off = (*place).unwrap_or(PutOff {
            file: NO_FILE,
            first: now,
            pauses: 0,
            due: None,
        });
        let seconds = pause_before_try(put_off.pauses);
        let due = now.checked_add(Duration::from_secs(seconds));
        *place = Some(put_off.once_more(due));
        Some(seconds)
    }

    /// Whether a printer waits until it is tried again.
    pub fn is_waiting<R: Wait>(&self, rt: &R, printer: u32) -> bool {
        let Some(place) = self.place(printer) else {
            return false;
        };
        let put_off = *place.lock(rt);
        put_off.is_some_and(|put_off| put_off.due.is_some())
    }

    /// Whether a printer gave its job back, and wasn't reached since.
    pub fn is_tried<R: Wait>(&self, rt: &R, printer: u32) -> bool {
        let Some(place) = self.place(printer) else {
            return false;
        };
        let put_off = *place.lock(rt);
        put_off.is_some_and(|put_off| put_off.pauses > 0)
    }

    /// Whether a printer is tried again now. It counts as tried from then on.
    pub fn take_due<R: Wait>(&self, rt: &R, printer: u32, now: Instant) -> bool {
        let Some(place) = self.place(printer) else {
            return false;
        };
        let mut place = place.lock(rt);
        let Some(put_off) = *place else {
            return false;
        };
        if !put_off.due.is_some_and(|due| due <= now) {
            return false;
        }
        *place = Some(put_off.again());
        true
    }

    /// A printer is reached, or its job has ended.
    pub fn end<R: Wait>(&self, rt: &R, printer: u32) {
        if let Some(place) = self.place(printer) {
            *place.lock(rt) = None;
        }
    }
}
