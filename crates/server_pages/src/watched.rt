//! What is noted and logged of the pages that a printer writes.

ghost use Rattle.std.specs.Prelude.{◌≡◌};
ghost use Rattle.server_pages.specs.Keeping.{end_of};

use crate::sink::Explains;
use job_files::JobEnd;
use log::{Log, warn};
use printer_worker::{HandedPage, Leaving, PrintSink, SinkFault};
use server_house::{House, HouseLedger};
use sink_devices::Errand;
use std::fs::{File, Files};
use std::rt::Clock;
use std::sync::Wait;

/// The part of the program that logs what happens here, as the log names it.
const PART: &str = "lpd_daemon::printing";

/// How a job ends for its folder that a printer has left so: None where others end it, or it stays for the next start. What was printed
/// and isn't where it should be has failed.
fn end_of(leaving: Leaving, is_there: bool) -> Option<JobEnd>
    ensures { result ≡ end_of leaving is_there }
{
    match leaving {
        Leaving::Done if is_there => Some(JobEnd::Done),
        Leaving::Done | Leaving::Failed => Some(JobEnd::Failed),
        Leaving::Ended | Leaving::Closed => None,
    }
}

/// The sink of a printer, of which each page that isn't written is logged, with why, and it is kept since when the printer stands
/// still.
#[derive(Drop)]
pub struct Watched<'h, 'a, R, E: HouseLedger, S> {
    house: House<'h, 'a, R, E>,
    printer: u32,
    /// The number of the printer's queue.
    queue: u32,
    sink: S,
    /// A page wasn't written, of a job that was to be printed no more.
    was_given_up: bool,
    /// The job that it is at.
    job: Option<u64>,
}

impl<'h, 'a, R, E: HouseLedger, S> Watched<'h, 'a, R, E, S> {
    /// The sink of the printer of this number of a house.
    pub fn new(house: House<'h, 'a, R, E>, printer: u32, sink: S) -> Watched<'h, 'a, R, E, S>
        ensures { result.sink ≡ sink }
    {
        Watched {
            house,
            printer,
            queue: house.hall.oversight.config.queue_of(printer),
            sink,
            was_given_up: false,
            job: None,
        }
    }
}

impl<R: Files<File = File> + Clock + Log + Wait, E: HouseLedger, S: PrintSink + Explains> Watched<
    '_,
    '_,
    R,
    E,
    S,
> {
    /// Tells of a page that wasn't written, once, with its printer, its job, its place and the cause. The printer will stand still, so
    /// the number of these warnings needs no bound.
    fn tell_fault(&self, page: &HandedPage) {
        let (hall, printer) = (self.house.hall, self.printer);
        let (job, place) = (page.job, page.place);
        let cause = self.sink.cause();
        hall.oversight.standstills.begin(hall.rt, printer, cause);
        match cause {
            Some(cause) =>
                warn!(hall.rt; target: PART, "printer {printer}: job {job}, place {place}: {cause}"),
            None =>
                warn!(hall.rt; target: PART, "printer {printer}: job {job}, place {place}: not written"),
        }
    }

    /// Whether the printer waits until it is tried again: its job was put back.
    fn is_put_off(&self) -> bool {
        let hall = self.house.hall;
        hall.put_offs.is_waiting(hall.rt, self.printer)
    }

    /// A page of this job is to be written. Where the job only now begins that is a try of its printer, whoever started that: what fails of it
    /// from here on fails, and wasn't put back. A job whose file isn't known yet is noted at its next turn: since when its printer was tried before
    /// isn't forgotten for that.
    fn note_try(&self, job: u64) {
        if self.job != Some(job) {
            let _ = self.house.first_try(self.printer, job);
        }
    }

    /// Notes a page that came back as not written, with which the printer stands still: its job has failed, or, where none is lost, had
    /// been removed. Then the printer has no cause to stand still where the next job may be tried all the same. One whose job was put back
    /// stands still until it is tried again.
    fn note_failed(&self, is_lost: bool) {
        let (hall, printer) = (self.house.hall, self.printer);
        if self.is_put_off() {
            // Nor for one of which it stood still before.
            hall.oversight.standstills.end(hall.rt, printer);
            return;
        }
        if is_lost || !self.sink.may_go_on() {
            hall.restarts.note_failure(hall.rt, self.queue, is_lost);
            return;
        }
        hall.oversight.standstills.end(hall.rt, printer);
        hall.withdrawals.note(hall.rt, self.queue);
    }

    /// How a job is left of which that is told. Where a page of it wasn't written and it was to be printed no more, it didn't fail: it
    /// had ended before, or the server ends. A removal that comes between the question whether the job is wanted and the page's return is
    /// told as a failure all the same: what the spool says is alike in both cases.
    fn how_left(&self, told: Leaving, was_given_up: bool) -> Leaving {
        match told {
            Leaving::Failed if was_given_up && self.house.hall.ending.is_over() => Leaving::Closed,
            Leaving::Failed if was_given_up => Leaving::Ended,
            _ => told,
        }
    }
}

impl<R: Files<File = File> + Clock + Log + Wait, E: HouseLedger, S: PrintSink + Explains> PrintSink
    for Watched<'_, '_, R, E, S> {
    ghost oks = { λ watched. S.oks watched.sink };

    ghost errs = { λ watched. S.errs watched.sink };

    fn write_page(&mut self, page: &HandedPage) -> Result<(), SinkFault> {
        let hall = self.house.hall;
        self.note_try(page.job);
        self.job = Some(page.job);
        let written = self.sink.write_page(page);
        if written.is_ok() {
            hall.restarts.note_page(hall.rt, self.queue);
            hall.put_offs.end(hall.rt, self.printer);
        } else if self.is_put_off() {
            self.was_given_up = true;
        } else {
            self.tell_fault(page);
            self.was_given_up = !self.house.is_wanted(page.job);
        }
        written
    }

    fn leave_job(&mut self, leaving: Leaving) -> Result<(), SinkFault> {
        let (hall, printer) = (self.house.hall, self.printer);
        let how = self.how_left(leaving, self.was_given_up);
        self.was_given_up = false;
        if !self.is_put_off() {
            hall.oversight.delays.end(hall.rt, printer);
            hall.put_offs.end(hall.rt, printer);
        }
        if leaving == Leaving::Failed {
            self.note_failed(how == Leaving::Failed);
        }
        let left = self.sink.leave_job(how);
        if let (Err(SinkFault), Some(cause)) = (left, self.sink.cause()) {
            warn!(hall.rt; target: PART, "printer {printer}: a job that was printed is not in its folder: {cause}");
        }
        if let (Some(job), Some(end)) = (self.job.take(), end_of(how, left.is_ok())) {
            hall.end_job(job, end);
        }
        left
    }
}
