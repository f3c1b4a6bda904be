//! What printers ask a house that wait.

use crate::house::House;
use crate::ledgers::HouseLedger;
use log::{Log, warn};
use server_notes::DelayCause;
use sink_devices::Errand;
use std::fs::{File, Files};
use std::io::Error;
use std::rt::Clock;
use std::sync::Wait;
use std::time::Instant;

/// For how many milliseconds a printer is tried before its job may be put back: one that is busy with something else is reached by then.
const TRIED_MS: u64 = 3_000;

impl<R: Files<File = File> + Clock + Log + Wait, E: HouseLedger> Errand for House<'_, '_, R, E> {
    fn is_wanted(&self, job: u64) -> bool {
        !self.hall.ending.is_over() && self.spool.is_wanted(self.hall.rt, job)
    }

    fn is_cut_off(&self) -> bool {
        self.hall.ending.cuts_off()
    }

    fn tell_unreached(&self, printer: u32, job: u64, seconds: u64) {
        let queue = self.hall.oversight.config.queue_of(printer);
        // One entry stays for the close.
        let left = self.spool.vacancy(self.hall.rt).entries.saturating_sub(1);
        let more = left / self.hall.oversight.config.reserve_of(queue);
        let name = self.hall.queue_name(queue);
        warn!(self.hall.rt; "printer {printer} hasn't been reached for {seconds} s: job {job} waits for it, and the account has room for {more} more jobs of {name}");
    }

    fn note_unreached(&self, printer: u32, cause: Error) {
        let (hall, cause) = (self.hall, DelayCause::Unreached(cause));
        // That it isn't reached is told by whoever dials.
        let _ = hall.oversight.delays.note(hall.rt, printer, cause);
    }

    fn note_halt(&self, printer: u32) {
        let hall = self.hall;
        let noted = hall
            .oversight
            .delays
            .note(hall.rt, printer, DelayCause::TakesNothing);
        if let Some(minutes) = noted {
            let name = hall.queue_name(hall.oversight.config.queue_of(printer));
            warn!(hall.rt; "printer {printer} of {name} has taken nothing for {minutes} min, amid a job");
        }
    }

    fn note_taken(&self, printer: u32) {
        self.hall.oversight.delays.end(self.hall.rt, printer);
    }

    fn note_end(&self, printer: u32, doubtful: Option<u64>) {
        self.hall
            .oversight
            .doubts
            .note(self.hall.rt, printer, doubtful);
    }

    fn first_try(&self, printer: u32, job: u64) -> Option<Instant> {
        let kept = self.hall.kept.as_ref()?;
        let file = kept.disk.file_of(job)?;
        self.hall.put_offs.first_try(self.hall.rt, printer, file)
    }

    fn offer(&self, printer: u32, job: u64, tried_ms: u64) {
        let hall = self.hall;
        if hall.kept.is_some() && (tried_ms >= TRIED_MS || hall.ending.stops()) {
            hall.offers.open(hall.rt, printer, job);
        }
    }

    fn withdraw(&self, printer: u32) -> bool {
        self.hall.kept.is_some() && self.hall.offers.withdraw(self.hall.rt, printer)
    }
}
