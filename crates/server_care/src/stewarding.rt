//! The thread that has done what is asked at the control socket, does what signals ask, and tells again of printers that stand still.

ghost use Rattle.std.specs.Prelude.{◌≡◌, None, Some, min};
ghost use Rattle.std.specs.Option.{option_map};
ghost use Rattle.std.specs.Time.{instant_nanos};
ghost use Rattle.std.specs.declared.time.Instant.{Instant as Moment};

use crate::care::Care;
use crate::commands::{Commands, Reply};
use crate::counter::Counter;
use control_socket::{AskedLine, Pending};
use log::{Log, warn};
use server_house::{HouseLedger, HouseSeat};
use server_notes::Standstill;
use std::alloc::AllocError;
use std::fs::{File, Files};
use std::rt::Clock;
use std::sync::Wait;
use std::time::{Duration, Instant};

/// Who does what is asked.
#[derive(Drop)]
struct Steward<'h, 'a, R, E: HouseLedger, C> {
    care: &'h Care<'h, 'a, R, E>,
    /// Who does what is asked at the control socket.
    commands: C,
    seat: HouseSeat<E>,
    counter: Counter,
    /// When nothing is waited for any more, where that was asked.
    cut_off_at: Option<Instant>,
}

/// The earlier one of two moments, each of which there may be.
fn earlier(first: Option<Instant>, second: Option<Instant>) -> Option<Instant>
    ensures first { second ≡ None → result ≡ first }
    ensures second { first ≡ None → result ≡ second }
    ensures both { (a b : Moment) → first ≡ Some a → second ≡ Some b
        → option_map instant_nanos result ≡ Some (min (instant_nanos a) (instant_nanos b)) }
{
    match (first, second) {
        (Some(first), Some(second)) => Some(first.min(second)),
        (first, second) => first.or(second),
    }
}

impl<R: Files<File = File> + Clock + Log + Wait, E: HouseLedger, C: Commands<E>> Steward<
    '_,
    '_,
    R,
    E,
    C,
> {
    /// Nobody is let in any more; after N seconds nothing is waited for any more, where there is such a number.
    fn stop(&mut self, seconds: Option<u32>) {
        let hall = self.care.hall;
        hall.ending.stop();
        let _ = hall.waker.wake();
        if let (Some(seconds), Ok(now)) = (seconds, Instant::now(hall.rt)) {
            let at = now.checked_add(Duration::from_secs(u64::from(seconds)));
            self.cut_off_at = earlier(self.cut_off_at, at);
        }
    }

    /// Nothing is waited for any more.
    fn stop_now(&mut self) {
        self.care.cut_off(&mut self.seat);
    }

    /// Does what signals ask.
    fn look_at_signals(&mut self) {
        match self.counter.pending() {
            Pending::Neither => {}
            Pending::One if self.care.hall.ending.stops() => {}
            Pending::One => self.stop(None),
            Pending::Both => self.stop_now(),
        }
    }

    /// Does what is due.
    fn look_at_clock(&mut self) {
        let Ok(now) = Instant::now(self.care.hall.rt) else {
            return;
        };
        if self.cut_off_at.is_some_and(|at| at <= now) {
            self.stop_now();
        }
        self.tell_standstills(now);
    }

    /// How many jobs of its queue wait behind a printer, where it stands still. None where it runs, of which it is kept that it doesn't
    /// stand still any more.
    fn jobs_behind(&self, printer: u32, queue: u32) -> Option<usize> {
        let (spool, hall) = (self.care.spool, self.care.hall);
        if !spool.is_stopped(hall.rt, printer) {
            hall.oversight.standstills.end(hall.rt, printer);
            return None;
        }
        Some(spool.held_in(hall.rt, queue))
    }

    /// Tells that a printer stands still.
    fn tell_standstill(&self, printer: u32, standstill: Standstill, now: Instant) {
        let hall = self.care.hall;
        let queue = hall.oversight.config.queue_of(printer);
        let Some(jobs) = self.jobs_behind(printer, queue) else {
            return;
        };
        let name = hall.queue_name(queue);
        let minutes = now.saturating_duration_since(standstill.since).as_secs() / 60;
        match standstill.cause {
            Some(cause) =>
                warn!(hall.rt; "printer {printer} of {name} has stood still for {minutes} min, with {jobs} jobs: {cause}"),
            None =>
                warn!(hall.rt; "printer {printer} of {name} has stood still for {minutes} min, with {jobs} jobs"),
        }
    }

    /// Tells of each printer that stands still, where that is due.
    fn tell_standstills(&self, now: Instant) {
        let hall = self.care.hall;
        for at in 0..hall.oversight.config.printer_count() {
            let printer = at + 1;
            if let Some(standstill) = hall.oversight.standstills.take_due(hall.rt, printer, now) {
                self.tell_standstill(printer, standstill, now);
            }
        }
    }

    /// Has done what was asked at the control socket.
    fn answer(&mut self, asked: AskedLine) {
        let alloc = self.care.hall.alloc;
        match self
            .commands
            .carry_out(&mut self.seat, asked.line.as_slice())
        {
            Ok(Reply::Stop { seconds }) => self.stop(seconds),
            Ok(Reply::StopNow) => self.stop_now(),
            Ok(Reply::Answer(octets)) => self.counter.answer(&asked, octets),
            // Without memory for the answer there is none.
            Err(AllocError) => self.counter.answer(&asked, Vec::new(alloc)),
        }
    }
}

impl<R: Files<File = File> + Clock + Log + Wait, E: HouseLedger> Care<'_, '_, R, E> {
    /// Has done what is asked, by whoever is handed in, and tells again of printers that stand still, until the spool is closed. Answers the seat, and what still
    /// waits for the server's end. Where nobody looks after the server or at it, this answers at once.
    pub fn look_after<C: Commands<E> + Drop>(
        &self,
        seat: HouseSeat<E>,
        counter: Counter,
        commands: C,
    ) -> (HouseSeat<E>, Counter) {
        if !self.hall.is_watched() {
            return (seat, counter);
        }
        let mut steward = Steward {
            care: self,
            commands,
            seat,
            counter,
            cut_off_at: None,
        };
        for _ in self.hall.rt.forever() {
            if self.hall.ending.is_closed() {
                break;
            }
            steward.look_at_signals();
            steward.look_at_clock();
            if let Some(asked) = steward.counter.next(self.hall.rt) {
                steward.answer(asked);
            }
        }
        let Steward { seat, counter, .. } = steward;
        (seat, counter)
    }
}
