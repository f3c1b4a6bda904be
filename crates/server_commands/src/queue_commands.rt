//! Commands for a queue, and for the account.

ghost use Rattle.std.specs.Prelude.{◌≡◌, ◌↔◌, ◌⊎◌, IsTrue, false, true};

use crate::commander::Commander;
use control_lines::{AnswerEnd, Escaped};
use decimals::read_decimal;
use log::Log;
use server_house::{HouseLedger, HouseSeat, PrintedLine, rotation_of};
use server_jobs::{AnswerLines, is_received};
use shared_spool::{Octets, Refusal, SeenJob};
use std::alloc::AllocError;
use std::fs::{File, Files};
use std::io;
use std::rt::Clock;
use std::sync::Wait;

/// Who removes what is removed at the control socket.
const AGENT: &[u8] = b"root";

/// Whether the spool's words of a removal are told: where a job of it was removed, or none in the folder of kept jobs either.
fn tells_of_spool(has_removed: bool, has_parked: bool) -> bool
    ensures { IsTrue result ↔ ((has_removed ≡ true) ⊎ (has_parked ≡ false)) }
{
    has_removed || !has_parked
}

impl<R: Files<File = File> + Clock + Log + Wait, E: HouseLedger> Commander<'_, '_, R, E> {
    /// The numbers of the printers of a queue that stand still now. An error where memory is refused.
    fn stopped_of(&self, queue: &[u8]) -> Result<Vec<u32>, AllocError> {
        let config = &self.hall.oversight.config;
        let mut stopped = Vec::new(self.hall.alloc);
        let Some(queue) = config.queue_named(queue) else {
            return Ok(stopped);
        };
        for before in 0..config.printer_count() {
            let printer = before + 1;
            if config.queue_of(printer) == queue && self.spool.is_stopped(self.hall.rt, printer) {
                stopped.push(printer)?;
            }
        }
        Ok(stopped)
    }

    /// Starts the stopped printers of a queue, and tells which.
    pub(crate) fn start_queue(
        &self,
        seat: &mut HouseSeat<E>,
        queue: &[u8],
    ) -> Result<Vec<u8>, AllocError> {
        let mut answer = self.no_lines();
        let stopped = self.stopped_of(queue)?;
        let started = match self.spool.start_telling(self.hall.rt, seat, queue) {
            Ok(started) => started,
            Err(refusal) => return answer.end_by(Some(refusal)),
        };
        for printer in stopped.iter() {
            answer.line(format!(in self.hall.alloc; "started {printer}"));
        }
        if started.stopped == 0 {
            answer.words("started none");
            if self.is_held(started.queue)? {
                let name = self.hall.queue_name(started.queue);
                answer.line(format!(in self.hall.alloc; "{name} is held: release {name}"));
            }
        }
        answer.end(AnswerEnd::Done)
    }

    /// Whether the queue of a number is held. An error where memory is refused.
    fn is_held(&self, queue: u32) -> Result<bool, AllocError> {
        let sight = self.spool.sight(self.hall.rt, self.hall.alloc)?;
        Ok(sight.held.get(queue as usize).copied().unwrap_or(false))
    }

    /// Whether the queue of a name is held; not where there is none. An error where memory is refused.
    fn is_held_by_name(&self, queue: &[u8]) -> Result<bool, AllocError> {
        match self.hall.oversight.config.queue_named(queue) {
            Some(queue) => self.is_held(queue),
            None => Ok(false),
        }
    }

    /// The folder of kept jobs, if there is one, is told that the queue of a name is held, or isn't any more. An error where it can't tell
    /// that to the next server.
    fn note_held(&self, queue: &[u8], is_held: bool) -> io::Result<()> {
        let (rt, alloc, config) = (self.hall.rt, self.hall.alloc, &self.hall.oversight.config);
        let Some(kept) = &self.hall.kept else {
            return Ok(());
        };
        let number = config.queue_named(queue);
        match number.and_then(|number| number.checked_sub(1)) {
            Some(place) => kept.set_held(rt, alloc, config, place as usize, is_held),
            None => Ok(()),
        }
    }

    /// Holds a queue, or releases it, in the spool and in the folder, while no job of it is fed or leaves the spool: that holds it for a moment
    /// too. Answers why the next server won't know it, where that is so.
    fn set_held(&self, queue: &[u8], is_held: bool) -> Result<Option<io::Error>, Refusal> {
        let lines = self.hall.kept.as_ref().map(|kept| kept.disk.lines());
        if is_held {
            self.spool.hold(self.hall.rt, queue)?;
        } else {
            self.spool.release(self.hall.rt, queue)?;
        }
        let noted = self.note_held(queue, is_held);
        drop(lines);
        Ok(noted.err())
    }

    /// Tells that what was asked lasts until the server ends alone, where that is so.
    fn tell_unkept(&self, answer: &mut AnswerLines, why: Option<io::Error>) {
        if let Some(error) = why {
            answer.line(format!(in self.hall.alloc; "the next server won't know it: {error}"));
        }
    }

    /// Holds a queue. Tells where it was held before.
    pub(crate) fn hold_queue(&self, queue: &[u8]) -> Result<Vec<u8>, AllocError> {
        let mut answer = self.no_lines();
        let was_held = self.is_held_by_name(queue)?;
        match self.set_held(queue, true) {
            Ok(why) => self.tell_unkept(&mut answer, why),
            Err(refusal) => return answer.end_by(Some(refusal)),
        }
        if was_held {
            answer.words("held already");
        }
        answer.end(AnswerEnd::Done)
    }

    /// Tells that a queue wasn't held, and which of its printers are stopped.
    fn tell_unheld(&self, answer: &mut AnswerLines, queue: &[u8]) -> Result<(), AllocError> {
        let stopped = self.stopped_of(queue)?;
        if stopped.is_empty() {
            answer.words("nothing held");
        }
        let queue = Escaped(queue);
        for printer in stopped.iter() {
            answer.line(format!(in self.hall.alloc;
                "nothing held: printer {printer} is stopped: start {queue}"
            ));
        }
        Ok(())
    }

    /// Releases a queue. Where it wasn't held that is told, and what would have its jobs printed.
    pub(crate) fn release_queue(&self, queue: &[u8]) -> Result<Vec<u8>, AllocError> {
        let mut answer = self.no_lines();
        let was_held = self.is_held_by_name(queue)?;
        match self.set_held(queue, false) {
            Ok(why) => self.tell_unkept(&mut answer, why),
            Err(refusal) => return answer.end_by(Some(refusal)),
        }
        if !was_held {
            self.tell_unheld(&mut answer, queue)?;
        }
        answer.end(AnswerEnd::Done)
    }

    /// A line that tells by which command the job goes whose number of acceptance this is, where it is a received one of the queue: `remove`
    /// takes the number that its sender gave it.
    fn hint_of(&self, queue: u32, whom: &[u8]) -> Result<Option<String>, AllocError> {
        let Some(number) = read_decimal(whom) else {
            return Ok(None);
        };
        let sight = self.spool.sight(self.hall.rt, self.hall.alloc)?;
        let mut jobs = sight.spool.jobs.iter();
        let is_meant = |job: &&SeenJob| job.number == number
            && job.queue == queue
            && is_received(job);
        let Some(job) = jobs.find(is_meant) else {
            return Ok(None);
        };
        let commander = self.of_jobs();
        let name = commander.name_of(job);
        let line = format!(in self.hall.alloc;
            "remove takes the number that the client gave: for {name} say cancel job {number}"
        )?;
        Ok(Some(line))
    }

    /// Removes the jobs of a queue that wait in the folder of kept jobs, if there is one, and that these words name: a line for each.
    fn remove_waiting(&self, queue: u32, words: &[Octets]) -> Result<Vec<u8>, AllocError> {
        match &self.hall.kept {
            Some(kept) => kept.remove_waiting(self.hall.rt, self.hall.alloc, queue, AGENT, words),
            None => Ok(Vec::new(self.hall.alloc)),
        }
    }

    /// Removes a job or a user's jobs of a queue, and tells which.
    pub(crate) fn remove_jobs(
        &self,
        seat: &mut HouseSeat<E>,
        queue: &[u8],
        whom: &[u8],
    ) -> Result<Vec<u8>, AllocError> {
        let list = [Octets::copy_of(self.hall.alloc, whom)?];
        match self
            .spool
            .remove_telling(self.hall.rt, seat, queue, AGENT, &list)
        {
            Ok(removal) => {
                let parked = self.remove_waiting(removal.queue, &list)?;
                let mut more = self.no_lines();
                if removal.numbers.is_empty() && parked.is_empty() {
                    if let Some(hint) = self.hint_of(removal.queue, whom)? {
                        more.words(hint.as_str());
                    }
                }
                let has_text = tells_of_spool(!removal.numbers.is_empty(), !parked.is_empty());
                self.hall.end_removed(removal.numbers);
                let mut octets = if has_text {
                    removal.text.into_vec()
                } else {
                    Vec::new(self.hall.alloc)
                };
                octets.extend_from_slice(parked.as_slice())?;
                let end = more.end(AnswerEnd::Done)?;
                octets.extend_from_slice(end.as_slice())?;
                Ok(octets)
            }
            Err(refusal) => self.no_lines().end_by(Some(refusal)),
        }
    }

    /// Rotates the account. The porter prints that.
    pub(crate) fn rotate_account(&self, seat: &mut HouseSeat<E>) -> Result<Vec<u8>, AllocError> {
        let mut answer = self.no_lines();
        if !self.hall.takes_place() {
            return answer.end_by(Some("segments of the account wait to be written"));
        }
        match self.spool.rotate(self.hall.rt, seat) {
            Ok(segment) => {
                let rotation = rotation_of(&segment);
                self.hall.note_rotated(Ok(segment));
                let _ = self.hall.waker.wake();
                let (number, entries) = (rotation.number, rotation.entries);
                let line = PrintedLine::Rotated { number, entries };
                answer.line(format!(in self.hall.alloc; "{line}"));
                answer.end(AnswerEnd::Done)
            }
            Err(refusal) => {
                self.hall.give_place_back();
                answer.end_by(Some(refusal))
            }
        }
    }
}
