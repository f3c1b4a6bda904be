//! The end of a server that is stopped: what it still waits for, and what it tells of what is lost.
//!
//! A stop waits for what goes on by itself. A job is waited for where its queue has a printer that isn't stopped, and it has begun, or is
//! whole in a queue that isn't held, or has ended with a page out; and a pipe until its reader has taken what is in it. What waits for
//! somebody, in the queue of a stopped printer or in one that is held, is passed over and told job by job. Whether anything is left is
//! asked by a snapshot, and not by the wait for an idle spool, which one stopped printer ends.
//!
//! `stop now` ends the sessions first and tells what is lost then: so no job is acknowledged after it was told.

ghost use Rattle.std.specs.Prelude.{◌≡◌};
ghost use Rattle.std.specs.List.{list_any};
ghost use Rattle.shared_spool.specs.Line.{held_at};
ghost use Rattle.spool_snapshot.specs.declared.job.SeenJob.{SeenJob as Seen};
ghost use Rattle.standings.specs.Stages.{is_awaited};

use crate::care::Care;
use control_lines::Escaped;
use log::{Log, warn};
use printer_devices::has_unread;
use server_house::{HouseLedger, HouseSeat};
use shared_spool::{SeenJob, Sight};
use spool_calls::Printer;
use standings::{JobStage, is_awaited, stage_of};
use std::fs::{File, Files};
use std::rt::Clock;
use std::sync::Wait;
use std::thread;
use std::time::Duration;

/// The time between two looks at what is left to do, in milliseconds.
const LOOK_MS: u64 = 100;

/// How many lines in a row tell of jobs that are lost. The log has room for some more.
const LINES: usize = 64;

/// The pause after these, in which the log writes them, in milliseconds.
const PAUSE_MS: u64 = 20;

/// Whether a server that stops waits for a job, where queues are held or aren't, by their numbers.
fn is_awaited_there(printers: &[Printer], held: &[bool], job: &SeenJob) -> bool
    ensures { result ≡ is_awaited printers.now (held_at held.now job.now.queue) job.now }
{
    let is_held = held.get(job.queue as usize).copied().unwrap_or(false);
    is_awaited(printers, is_held, job)
}

/// Whether a server that stops waits for a job.
fn awaits_one(sight: &Sight) -> bool
    ensures { result ≡ list_any (λ (job : Seen). is_awaited sight.now.spool.printers.items
        (held_at sight.now.held.items job.queue) job) sight.now.spool.jobs.items }
{
    let (printers, held) = (sight.spool.printers.as_slice(), sight.held.as_slice());
    sight
        .spool
        .jobs
        .iter()
        .any(|job| is_awaited_there(printers, held, job))
}

/// Whether a job has come whole.
fn is_whole(job: &SeenJob) -> bool {
    !matches!(stage_of(job), JobStage::Arriving)
}

impl<R: Files<File = File> + Clock + Log + Wait, E: HouseLedger> Care<'_, '_, R, E> {
    /// Whether the pipe of a printer that runs has octets that its reader hasn't taken.
    fn has_full_pipe(&self, sight: &Sight) -> bool {
        let printers = sight.spool.printers.iter();
        let mut pipes = self.hall.oversight.pipes.iter().zip(printers);
        pipes.any(|(pipe, printer)| {
            !printer.stopped && pipe.as_ref().is_some_and(|pipe| has_unread(pipe))
        })
    }

    /// Whether nothing is left to do.
    fn is_done(&self) -> bool {
        if !self.hall.ending.stops() {
            return self.spool.is_idle(self.hall.rt);
        }
        let Ok(sight) = self.spool.sight(self.hall.rt, self.hall.alloc) else {
            return false;
        };
        !awaits_one(&sight) && !self.has_full_pipe(&sight)
    }

    /// Waits until nothing is left to do, once no session brings more; or until nothing is waited for any more.
    pub fn wait_until_done(&self) {
        if !self.hall.is_watched() {
            self.spool.idle_wait(self.hall.rt);
            return;
        }
        for _ in self.hall.rt.forever() {
            if self.hall.ending.cuts_off() || self.is_done() {
                return;
            }
            thread::sleep(self.hall.rt, Duration::from_millis(LOOK_MS));
        }
    }

    /// Tells that a job is lost.
    fn tell_lost(&self, job: &SeenJob) {
        let (user, host) = (Escaped(job.user.as_slice()), Escaped(job.host.as_slice()));
        let (number, queue, octets) = (job.number, self.hall.queue_name(job.queue), job.octets);
        let why = if is_whole(job) {
            "it isn't printed"
        } else {
            "it isn't whole"
        };
        warn!(self.hall.rt; "job {number} {queue} {user}@{host} {octets} octets is lost: {why}");
    }

    /// Whether a job that isn't whole in the spool is whole in the folder of kept jobs, and stays there: it is being fed, or just was.
    fn is_fed(&self, job: &SeenJob) -> bool {
        let Some(kept) = &self.hall.kept else {
            return false;
        };
        let place = job.queue.saturating_sub(1) as usize;
        // While one of a sender is fed no other one of that sender comes to the queue through the spool.
        let is_feeding = kept.disk.lines().is_feeding_of(place, job.sender);
        is_feeding || kept.disk.file_of(job.number).is_some()
    }

    /// Tells of each of these jobs that is whole, or of each that isn't, that it is lost; but of none whose file stays.
    fn tell_each_lost(&self, jobs: &[SeenJob], whole: bool) {
        let mut told = 0usize;
        for job in jobs {
            if is_whole(job) != whole || self.is_fed(job) {
                continue;
            }
            self.tell_lost(job);
            told = told.saturating_add(1);
            if told % LINES == 0 {
                thread::sleep(self.hall.rt, Duration::from_millis(PAUSE_MS));
            }
        }
    }

    /// Tells of each held job that is whole, or of each that isn't, that it is lost. Whole ones aren't where jobs are kept.
    fn tell_lost_of(&self, is_whole: bool) {
        // A whole job stays in its folder, and is printed after the next start.
        if is_whole && self.hall.kept.is_some() {
            return;
        }
        let Ok(sight) = self.spool.sight(self.hall.rt, self.hall.alloc) else {
            warn!(self.hall.rt; "memory was refused: jobs that are lost aren't told");
            return;
        };
        if !sight.spool.closed {
            self.tell_each_lost(sight.spool.jobs.as_slice(), is_whole);
        }
    }

    /// Tells of each job that is held that it is lost, where the server is stopped, and where it wasn't told yet.
    pub fn tell_all_lost(&self) {
        if !self.hall.ending.stops() {
            return;
        }
        let mut is_told = self.hall.ending.lost_is_told.lock(self.hall.rt);
        if !*is_told {
            self.tell_lost_of(false);
            self.tell_lost_of(true);
            *is_told = true;
        }
    }

    /// Ends the sessions, and tells what is lost where it wasn't told yet: nothing is left to do at this moment, perhaps, and then who closes
    /// the spool tells it.
    fn end_sessions(&self) {
        let mut is_told = self.hall.ending.lost_is_told.lock(self.hall.rt);
        // Before their sessions end them.
        if !*is_told {
            self.tell_lost_of(false);
        }
        // From here on no job is acknowledged: its session's octet 00 reaches nobody.
        self.hall.posts.hang_up(self.hall.rt);
        // Before a printer gives its job up, since it is waited for no more: that job is lost too.
        if !*is_told {
            self.tell_lost_of(true);
        }
        *is_told = true;
    }

    /// Waits for nothing any more: ends the sessions, tells what is lost, and closes the spool. A write that waits for its printer
    /// ends within a second.
    pub fn cut_off(&self, seat: &mut HouseSeat<E>) {
        if self.hall.ending.cuts_off() {
            return;
        }
        self.hall.ending.stop();
        let _ = self.hall.waker.wake();
        self.end_sessions();
        self.spool.close(self.hall.rt, seat);
        self.hall.ending.cut_off();
    }
}
