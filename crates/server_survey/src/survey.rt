//! How all of a server stands at one moment.

ghost use Rattle.std.specs.Prelude.{◌≡◌, ◌↔◌, ◌≤◌, ◌⊎◌, IsTrue, true};
ghost use Rattle.server_notes.specs.Standing.{shown_after};

use crate::surveyor::Surveyor;
use log::Log;
use server_house::HouseLedger;
use server_notes::Delay;
use shared_spool::Sight;
use standings::{EdgeNotes, FinishingTurn, JobNumbers, PrinterNotes, SeenTrouble, turns_of};
use status_lines::{KeptJobs, Outside, SeenSession, status_text};
use std::alloc::{AllocError, Global};
use std::fs::{File, Files};
use std::rt::Clock;
use std::sync::Wait;
use std::time::Instant;

/// Whether it is told that nothing of the page at a printer has gone for N seconds: where it is long enough, or its job was put back.
fn is_told(delay: &Delay, seconds: u64, is_put_off: bool) -> bool
    ensures { IsTrue result
        ↔ ((is_put_off ≡ true) ⊎ (shown_after delay.now.cause ≤ seconds)) }
{
    is_put_off || delay.is_shown(seconds)
}

/// What the edge of a server knows at one moment.
#[derive(Drop)]
pub struct Survey {
    /// For how many seconds the server runs.
    pub uptime: u64,
    stops: bool,
    lobby: usize,
    kept: Option<KeptJobs>,
    parked: Vec<u64>,
    sessions: Vec<SeenSession>,
    printers: Vec<PrinterNotes>,
    put_off: Vec<u64>,
    turns: Option<Vec<FinishingTurn>>,
    numbers: Vec<JobNumbers>,
}

impl Survey {
    /// What the edge knows beside a spool that this shows.
    pub fn outside<'a>(&'a self, sight: &'a Sight) -> Outside<'a>
        ensures uptime { result.uptime ≡ self.now.uptime }
        ensures stops { result.stops ≡ self.now.stops }
        ensures segment { result.segment ≡ sight.now.segment }
        ensures lobby { result.lobby ≡ self.now.lobby }
        ensures kept { result.kept ≡ self.now.kept }
    {
        Outside {
            uptime: self.uptime,
            stops: self.stops,
            segment: sight.segment,
            lobby: self.lobby,
            kept: self.kept,
            parked: self.parked.as_slice(),
            sessions: self.sessions.as_slice(),
            noted: EdgeNotes {
                // No queue has the number 0.
                held: sight.held.get(1..).unwrap_or(&[]),
                printers: self.printers.as_slice(),
                put_off: self.put_off.as_slice(),
                turns: self.turns.as_ref().map(|turns| turns.as_slice()),
                numbers: self.numbers.as_slice(),
            },
        }
    }
}

/// The numbers of the jobs whose sessions wait for a page. AllocError where memory for them is refused.
fn put_off_of(alloc: Global, sight: &Sight) -> Result<Vec<u64>, AllocError> {
    let mut put_off = Vec::new(alloc);
    for waiting in &sight.waiting {
        put_off.push(waiting.job)?;
    }
    Ok(put_off)
}

/// The turns in which the held jobs can finish; none where there is no such order. AllocError where memory for them is refused.
fn turns_in(alloc: Global, sight: &Sight) -> Result<Option<Vec<FinishingTurn>>, AllocError> {
    match sight.spool.finishing_order(alloc)? {
        Some(order) => {
            let turns = turns_of(alloc, &sight.spool.claims, order.as_slice())?;
            Ok(Some(turns))
        }
        None => Ok(None),
    }
}

impl<R: Files<File = File> + Clock + Log + Wait, E: HouseLedger> Surveyor<'_, '_, R, E> {
    /// The sessions that serve somebody, the oldest first, at this moment.
    fn seen_sessions(&self, start: Instant, now: Instant) -> Result<Vec<SeenSession>, AllocError> {
        let mut sessions = Vec::new(self.hall.alloc);
        for served in self
            .hall
            .posts
            .served(self.hall.rt, self.hall.alloc, start, now)?
        {
            sessions.push(SeenSession {
                peer: served.peer,
                silent: served.silent_seconds,
            })?;
        }
        Ok(sessions)
    }

    /// Since when a printer is stopped, at this moment, and why, where that is noted.
    fn seen_stop(&self, printer: u32, now: Instant) -> Result<Option<SeenTrouble>, AllocError> {
        let (rt, alloc) = (self.hall.rt, self.hall.alloc);
        let Some(standstill) = self.hall.oversight.standstills.of(rt, printer) else {
            return Ok(None);
        };
        let cause = match standstill.cause {
            Some(cause) => format!(in alloc; "{cause}")?,
            None => String::from_str(alloc, "not written")?,
        };
        let seconds = now.saturating_duration_since(standstill.since).as_secs();
        Ok(Some(SeenTrouble { seconds, cause }))
    }

    /// Since when nothing of the page at a printer goes, at this moment, and why, where that is noted and long enough, or its job was put back.
    fn seen_delay(&self, printer: u32, now: Instant) -> Result<Option<SeenTrouble>, AllocError> {
        let Some(delay) = self.hall.oversight.delays.of(self.hall.rt, printer) else {
            return Ok(None);
        };
        let seconds = now.saturating_duration_since(delay.since).as_secs();
        let is_put_off = self.hall.put_offs.is_waiting(self.hall.rt, printer);
        if !is_told(&delay, seconds, is_put_off) {
            return Ok(None);
        }
        let cause = format!(in self.hall.alloc; "{}", delay.cause)?;
        Ok(Some(SeenTrouble { seconds, cause }))
    }

    /// What is noted of each printer at this moment, by their numbers.
    fn seen_printers(&self, now: Instant) -> Result<Vec<PrinterNotes>, AllocError> {
        let mut printers = Vec::new(self.hall.alloc);
        for at in 0..self.hall.oversight.config.printer_count() {
            printers.push(PrinterNotes {
                stop: self.seen_stop(at + 1, now)?,
                unreached: self.seen_delay(at + 1, now)?,
                doubt: self.hall.oversight.doubts.of(self.hall.rt, at + 1),
            })?;
        }
        Ok(printers)
    }

    /// What the job of this number of acceptance is called outside of the spool, where it is held.
    pub fn numbers_of(&self, job: u64) -> JobNumbers {
        let (kept, book) = (self.hall.kept.as_ref(), self.hall.job_book.as_ref());
        JobNumbers {
            file: kept.and_then(|kept| kept.disk.file_of(job)),
            client: book.and_then(|book| book.number_of(self.hall.rt, job)),
        }
    }

    /// What each held job is called outside of the spool.
    fn seen_numbers(&self, sight: &Sight) -> Result<Vec<JobNumbers>, AllocError> {
        let mut numbers = Vec::new(self.hall.alloc);
        for job in &sight.spool.jobs {
            numbers.push(self.numbers_of(job.number))?;
        }
        Ok(numbers)
    }

    /// How many jobs of each queue wait in the folder of kept jobs, where there is one.
    fn seen_parked(&self) -> Result<Vec<u64>, AllocError> {
        let mut parked = Vec::new(self.hall.alloc);
        if let Some(kept) = &self.hall.kept {
            for place in 0..self.hall.oversight.config.queues().len() {
                parked.push(kept.disk.lines().parked(place) as u64)?;
            }
        }
        Ok(parked)
    }

    /// What the edge of the server knows at this moment, at which the spool is as that shows. None where the clock can't be read.
    /// AllocError where memory for it is refused.
    pub fn survey(&self, sight: &Sight) -> Result<Option<Survey>, AllocError> {
        let (Some(start), Ok(now)) = (self.hall.oversight.start, Instant::now(self.hall.rt)) else {
            return Ok(None);
        };
        Ok(Some(Survey {
            uptime: now.saturating_duration_since(start).as_secs(),
            stops: self.hall.ending.stops(),
            lobby: self.hall.oversight.in_lobby() as usize,
            kept: self
                .hall
                .kept
                .as_ref()
                .map(|kept| kept.counts(self.hall.rt)),
            parked: self.seen_parked()?,
            sessions: self.seen_sessions(start, now)?,
            printers: self.seen_printers(now)?,
            put_off: put_off_of(self.hall.alloc, sight)?,
            turns: turns_in(self.hall.alloc, sight)?,
            numbers: self.seen_numbers(sight)?,
        }))
    }

    /// How the spool, its sessions, its printers and its jobs stand, in lines; no line where the clock can't be read. AllocError where
    /// memory for it is refused.
    pub fn status(&self) -> Result<String, AllocError> {
        let sight = self.spool.sight(self.hall.rt, self.hall.alloc)?;
        let Some(survey) = self.survey(&sight)? else {
            return Ok(String::new(self.hall.alloc));
        };
        let (config, outside) = (&self.hall.oversight.config, survey.outside(&sight));
        status_text(self.hall.alloc, config, &sight.spool, &outside)
    }
}
