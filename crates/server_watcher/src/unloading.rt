//! Jobs that leave the spool again and wait in their folder, since they can't be printed now: their queue is held, all its printers are
//! stopped, or one of them isn't reached and offers its job. So a queue that can't print takes nothing from the others.
//!
//! All whole jobs of a sender and a queue leave at once, or none: a younger one would be printed before an older one. A job of which a page
//! was handed to a printer stays, unless that printer offers it. Those of a sender stay too one of whose jobs is still coming to the queue: it
//! would be accepted before them. Meanwhile the queue is held, so that no printer begins one of them, and the lines and the offers are
//! locked, so that none is fed and none goes on.

ghost use Rattle.std.specs.Prelude.{◌≡◌};
ghost use Rattle.server_watcher.specs.Unloading.{is_offered, leaves, lets_go};

use job_files::JobEnd;
use log::{Log, warn};
use server_folders::{HeldLines, JobFolder};
use server_house::{Hall, House, HouseLedger, HouseSeat, HouseSpool};
use server_notes::HeldOffers;
use server_sessions::{is_stopped, place_of};
use shared_spool::SeenJob;
use standings::{JobStage, stage_of};
use std::alloc::AllocError;
use std::fmt;
use std::fs::{File, Files};
use std::rt::Clock;
use std::sync::Wait;
use std::time::Instant;

/// The part of the program that logs what happens here, as the log names it.
const PART: &str = "lpd_daemon::unloading";

/// How many seconds lie between two lines of the log of one queue, at least.
const TELL_SECONDS: u64 = 60;

/// A job that a printer offers.
#[derive(Clone, Copy, Debug, PartialEq, Eq)]
pub(crate) struct OfferedJob {
    /// The printer's number.
    printer: u32,
    /// Its number of acceptance.
    job: u64,
}

/// Whether a printer offers the job of this number.
fn is_offered(offered: &[OfferedJob], job: u64) -> bool
    ensures { result ≡ is_offered offered.now job }
{
    offered.iter().any(|offer| offer.job == job)
}

/// Whether a job of the queue leaves the spool where those of its sender do.
fn leaves(offered: &[OfferedJob], job: &SeenJob) -> bool
    ensures { result ≡ leaves offered.now job.now }
{
    match stage_of(job) {
        JobStage::Waiting => true,
        JobStage::Printing => is_offered(offered, job.number),
        JobStage::Arriving | JobStage::Ended => false,
    }
}

/// Whether a job of the queue lets the others of its sender leave, where it is known to be whole or isn't.
fn lets_go(offered: &[OfferedJob], job: &SeenJob, is_whole: bool) -> bool
    ensures { result ≡ lets_go offered.now job.now is_whole }
{
    match stage_of(job) {
        JobStage::Arriving => false,
        JobStage::Ended => true,
        JobStage::Waiting => is_whole,
        JobStage::Printing => is_whole || !is_offered(offered, job.number),
    }
}

/// Why jobs of a queue leave the spool.
#[derive(Clone, Copy)]
enum Why {
    /// It is held.
    Held,
    /// All its printers are stopped.
    Stopped,
    /// A printer of it isn't reached.
    Unreached(u32),
}

impl fmt::Display for Why {
    fn fmt<W: fmt::Write>(&self, f: &mut fmt::Formatter<W>) -> fmt::Result {
        match self {
            Why::Held => f.write_str("it is held"),
            Why::Stopped => f.write_str("all its printers are stopped"),
            Why::Unreached(printer) => write!(f, "printer {printer} takes nothing"),
        }
    }
}

/// A queue whose jobs may have to leave the spool.
#[derive(Clone, Copy)]
struct LeavingQueue<'o> {
    number: u32,
    place: usize,
    why: Why,
    /// The jobs that its printers offer.
    offered: &'o [OfferedJob],
}

impl LeavingQueue<'_> {
    /// Whether all jobs of a sender may leave.
    fn lets_go(&self, jobs: &[SeenJob], lines: &HeldLines<'_>, sender: u32) -> bool {
        jobs.iter()
            .filter(|job| job.queue == self.number && job.sender == sender)
            .all(|job| {
                let is_whole = lines.is_whole(self.place, job.number);
                lets_go(self.offered, job, is_whole)
            })
    }

    /// Whether a job leaves the spool.
    fn has_leaving(&self, jobs: &[SeenJob], lines: &HeldLines<'_>, job: &SeenJob) -> bool {
        job.queue == self.number
            && leaves(self.offered, job)
            && self.lets_go(jobs, lines, job.sender)
    }

    /// Whether these jobs may leave it: where its printers aren't reached, only with a job that one of them offers. Else the others would be fed
    /// again at once, and leave again at the next look.
    fn may_leave(&self, leaving: &[u64]) -> bool {
        !matches!(self.why, Why::Unreached(_))
            || self
                .offered
                .iter()
                .any(|offer| leaving.contains(&offer.job))
    }
}

/// Who has jobs leave the spool that can't be printed now.
#[derive(Drop)]
pub(crate) struct Unloading<'h, 'a, R, E: HouseLedger> {
    spool: &'h HouseSpool<E>,
    hall: &'h Hall<'a, R>,
    /// When the log was told of each queue last, by their places.
    told: Vec<Option<Instant>>,
}

impl<'h, 'a, R: Files<File = File> + Clock + Log + Wait, E: HouseLedger> Unloading<'h, 'a, R, E> {
    /// Who does so in this house. AllocError where memory is refused.
    pub(crate) fn new(house: House<'h, 'a, R, E>) -> Result<Unloading<'h, 'a, R, E>, AllocError> {
        let House { spool, hall } = house;
        let mut told = Vec::new(hall.alloc);
        for _queue in hall.oversight.config.queues() {
            told.push(None)?;
        }
        Ok(Unloading { spool, hall, told })
    }

    /// The jobs that printers of a queue offer.
    fn offered(&self, offers: &HeldOffers<'_>, queue: u32) -> Result<Vec<OfferedJob>, AllocError> {
        let config = &self.hall.oversight.config;
        let mut offered = Vec::new(self.hall.alloc);
        for before in 0..config.printer_count() {
            let printer = before + 1;
            if config.queue_of(printer) != queue {
                continue;
            }
            if let Some(job) = offers.job_of(printer) {
                offered.push(OfferedJob { printer, job })?;
            }
        }
        Ok(offered)
    }

    /// Why jobs of a queue leave the spool, where they do.
    fn why(&self, kept: &JobFolder<'_, R>, queue: u32, offered: &[OfferedJob]) -> Option<Why> {
        if kept.is_held(self.hall.rt, place_of(queue)) {
            return Some(Why::Held);
        }
        if let Some(offer) = offered.first() {
            return Some(Why::Unreached(offer.printer));
        }
        is_stopped(self.hall, self.spool, queue).then_some(Why::Stopped)
    }

    /// Removes the jobs from the spool that leave it, and has them wait. Answers their numbers.
    fn remove(
        &self,
        seat: &mut HouseSeat<E>,
        lines: &mut HeldLines<'_>,
        queue: &LeavingQueue<'_>,
    ) -> Result<Vec<u64>, AllocError> {
        let (hall, rt, alloc) = (self.hall, self.hall.rt, self.hall.alloc);
        let sight = self.spool.sight(rt, alloc)?;
        let jobs = sight.spool.jobs.as_slice();
        let mut leaving = Vec::new(alloc);
        for job in jobs {
            if queue.has_leaving(jobs, lines, job) {
                leaving.push(job.number)?;
            }
        }
        if !queue.may_leave(leaving.as_slice()) {
            return Ok(Vec::new(alloc));
        }
        let name = hall.oversight.config.name_of(queue.number);
        let removed = self.spool.remove_jobs(rt, seat, name, leaving.as_slice());
        if removed.is_err() {
            return Ok(Vec::new(alloc));
        }
        for job in &leaving {
            if let Some(file) = lines.take_back(queue.place, *job) {
                hall.note_put_back(*job, file);
            }
        }
        Ok(leaving)
    }

    /// The same, while the queue is held.
    fn take_out(
        &self,
        kept: &JobFolder<'_, R>,
        seat: &mut HouseSeat<E>,
        lines: &mut HeldLines<'_>,
        queue: &LeavingQueue<'_>,
    ) -> Result<Vec<u64>, AllocError> {
        let rt = self.hall.rt;
        let name = self.hall.oversight.config.name_of(queue.number);
        if self.spool.hold(rt, name).is_err() {
            return Ok(Vec::new(self.hall.alloc));
        }
        let left = self.remove(seat, lines, queue);
        if !kept.is_held(rt, queue.place) {
            let _ = self.spool.release(rt, name);
        }
        left
    }

    /// Tells that this many jobs of a queue have left the spool, once a minute at most.
    fn tell(&mut self, queue: u32, why: Why, jobs: usize) {
        let hall = self.hall;
        let (Some(told), Ok(now)) = (self.told.get_mut(place_of(queue)), Instant::now(hall.rt))
        else {
            return;
        };
        let is_due = match *told {
            Some(told) => now.saturating_duration_since(told).as_secs() >= TELL_SECONDS,
            None => true,
        };
        if is_due {
            *told = Some(now);
            let name = hall.queue_name(queue);
            warn!(hall.rt; target: PART, "{jobs} jobs of queue {name} wait in the folder again: {why}");
        }
    }

    /// Has the jobs of a queue leave the spool that can't be printed now.
    fn unload(
        &mut self,
        kept: &JobFolder<'_, R>,
        seat: &mut HouseSeat<E>,
        queue: u32,
    ) -> Result<(), AllocError> {
        let (hall, place) = (self.hall, place_of(queue));
        let mut offers = hall.offers.hold(hall.rt);
        let offered = self.offered(&offers, queue)?;
        let Some(why) = self.why(kept, queue, offered.as_slice()) else {
            return Ok(());
        };
        let mut lines = kept.disk.lines();
        if lines.used(place, 0).rows == 0 || lines.is_feeding(place) {
            return Ok(());
        }
        let leaving = LeavingQueue {
            number: queue,
            place,
            why,
            offered: offered.as_slice(),
        };
        let left = self.take_out(kept, seat, &mut lines, &leaving)?;
        for offer in &offered {
            if left.contains(&offer.job) {
                offers.take(offer.printer);
                hall.put_offs.put_off(hall.rt, offer.printer);
            }
        }
        drop(lines);
        drop(offers);
        if !left.is_empty() {
            kept.ring(hall.rt);
            self.tell(queue, why, left.len());
        }
        Ok(())
    }

    /// Removes the job in this file, which was being fed when it was removed: from the spool where that has it, else from the folder.
    fn remove_fed(&self, kept: &JobFolder<'_, R>, seat: &mut HouseSeat<E>, file: u64) {
        let hall = self.hall;
        let Some(job) = kept.disk.job_of(file) else {
            // It isn't there any more where it was done meanwhile.
            let _ = kept.remove(hall.rt, file);
            return;
        };
        for queue in hall.oversight.config.queues() {
            let removed = self.spool.remove_jobs(hall.rt, seat, queue.name(), &[job]);
            if removed.is_ok() {
                hall.end_job(job, JobEnd::Removed);
                return;
            }
        }
    }

    /// Removes the jobs that were being fed when they were removed; and has the jobs of each queue leave the spool that can't be printed
    /// now. Nothing where no jobs are kept. AllocError where memory is refused.
    pub(crate) fn look(&mut self, seat: &mut HouseSeat<E>) -> Result<(), AllocError> {
        let hall = self.hall;
        let Some(kept) = &hall.kept else {
            return Ok(());
        };
        for file in kept.take_removed(hall.rt, hall.alloc) {
            self.remove_fed(kept, seat, file);
        }
        for place in 0..hall.oversight.config.queues().len() {
            let queue = (place as u32).saturating_add(1);
            self.unload(kept, seat, queue)?;
        }
        Ok(())
    }
}
