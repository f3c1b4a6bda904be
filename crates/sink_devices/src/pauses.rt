//! Pauses between two tries to reach a printer.

ghost use Rattle.std.specs.Prelude.{◌≡◌, ◌^◌, min};

use crate::errand::Errand;
use crate::moments::{milliseconds_since, now, of_minutes};
use crate::waiting::PrinterWait;
use printer_sinks::Pause;
use std::num::NonZeroU64;
use std::rt::Clock;
use std::thread;
use std::time::{Duration, Instant};

/// The longest pause, in seconds.
const LONGEST_SECONDS: u64 = 30;

/// How many milliseconds pass between two looks at whether the server still waits.
const STEP_MS: u64 = 250;

/// How long a pause is, in seconds, after which this many have been: 1, 2, 4, 8, 16, 30, 30 and so on.
pub fn pause_seconds(tries: u64) -> u64
    ensures { result ≡ min 30 (2 ^ tries) }
{
    if tries < 5 {
        1 << tries
    } else {
        LONGEST_SECONDS
    }
}

/// Pauses of 1, 2, 4, 8, 16, 30, 30 .. seconds, while the job is wanted. Amid them it is offered to the server, which may put it back.
#[derive(Drop)]
pub struct Pauses<'a, R: Clock, Q: Errand> {
    rt: &'a R,
    errand: &'a Q,
    printer: u32,
    patience_ms: Option<u64>,
    // When the job's first try had failed, also before it was put back.
    start: Option<Instant>,
    // When its first try had failed since it is at the printer.
    tried: Option<Instant>,
}

impl<'a, R: Clock, Q: Errand> Pauses<'a, R, Q> {
    /// Pauses of the printer of this number that end for good once a job has waited for `patience` minutes since its first try; never
    /// without it. They end early where the job isn't wanted any more.
    pub fn new(
        rt: &'a R,
        printer: u32,
        patience: Option<NonZeroU64>,
        errand: &'a Q,
    ) -> Pauses<'a, R, Q> {
        Pauses {
            rt,
            errand,
            printer,
            patience_ms: patience.map(of_minutes),
            start: None,
            tried: None,
        }
    }

    /// Whether there is time left for another try.
    fn has_time(&self) -> bool {
        match self.patience_ms {
            Some(patience_ms) => milliseconds_since(self.rt, self.start) < patience_ms,
            None => true,
        }
    }

    /// Waits between two tries, and offers the job meanwhile. False where there is no time left, or the job isn't wanted any more.
    fn wait(&self, job: u64, tries: u64) -> bool {
        // The try before it may have ended since it wasn't.
        if !self.errand.is_wanted(job) {
            return false;
        }
        let mut waiting = PrinterWait::begin(self.rt, self.errand, job);
        for _step in 0..pause_seconds(tries) * 1_000 / STEP_MS {
            let tried_ms = milliseconds_since(self.rt, self.tried);
            self.errand.offer(self.printer, job, tried_ms);
            thread::sleep(self.rt, Duration::from_millis(STEP_MS));
            if !self.has_time() || !waiting.goes_on() {
                return false;
            }
        }
        true
    }
}

impl<'a, R: Clock, Q: Errand> Pause for Pauses<'a, R, Q> {
    fn pause(&mut self, job: u64, tries: u64) -> bool {
        if tries == 0 {
            self.tried = now(self.rt);
            self.start = self.errand.first_try(self.printer, job).or(self.tried);
        }
        let goes_on = self.wait(job, tries);
        // From here on octets of it may go.
        let is_put_back = self.errand.withdraw(self.printer);
        goes_on && !is_put_back
    }
}
