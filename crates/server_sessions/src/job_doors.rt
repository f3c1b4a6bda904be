//! Which way each job of a server's sessions goes that keeps jobs in a folder: through the spool, or beside it.
//!
//! A job goes beside the spool where its queue is held or all its printers stand, where jobs of it wait in the folder or one of its
//! sender's comes beside the spool, where its queue has its part of the spool, or the pool doesn't have all that it may claim, until a start has
//! read all that it found, and where the spool has no room for it. So a queue that can't print takes nothing from the others, its
//! senders aren't refused, and no session waits for a page that another job has.

ghost use Rattle.std.specs.Prelude.{◌≡◌, ◌-◌, ℕ};
ghost use Rattle.parked_requests.specs.Ways.{AddsTo, Opens};

use config_values::Config;
use log::{Log, warn};
use lpd_values::{Octets, Refusal};
use parked_lines::{JobSize, ParkState, QueuePart, SpoolShape};
use parked_requests::{JobWays, OpenedJob};
use request_session::Requests;
use server_folders::{HeldLines, JobFolder};
use server_house::{Hall, HouseLedger, HouseSpool};
use std::alloc::AllocError;
use std::fs::{File, Files};
use std::rt::Clock;
use std::sync::Wait;
use told_jobs::StateQuery;

/// The part of the program that logs what happens here, as the log names it.
const PART: &str = "lpd_daemon::parking";

/// The job that a session has in hand.
#[derive(Clone, Copy)]
struct DoorJob {
    /// The place of its queue.
    place: usize,
    /// The number of its file.
    number: u64,
}

/// The place of the queue of this number.
pub fn place_of(queue: u32) -> usize
    ensures { result ≡ queue - 1 }
{
    queue.saturating_sub(1) as usize
}

/// How much of a spool of this configuration a queue may have, where so many queues have jobs.
pub fn part_of(config: &Config, queue: u32, busy: usize) -> QueuePart {
    let shape = SpoolShape {
        max_jobs: config.max_jobs(),
        pages: config.pages(),
        queues: config.queues().len() as u32,
    };
    let busy = u32::try_from(busy).unwrap_or(u32::MAX);
    shape.part_of(config.printers_of(queue), config.limit_of(queue), busy)
}

/// How many pages of a spool of this configuration no job holds or may still claim, as these lines tell of the jobs.
pub fn unclaimed(config: &Config, lines: &HeldLines<'_>) -> u64 {
    let claimed = (0..config.queues().len()).fold(0u64, |so_far, place| {
        let queue = (place as u32).saturating_add(1);
        so_far.saturating_add(lines.used(place, config.limit_of(queue)).pages)
    });
    u64::from(config.pages()).saturating_sub(claimed)
}

/// Whether all printers of a queue are stopped, or wait until they are tried again.
pub fn is_stopped<R: Wait, E: HouseLedger>(
    hall: &Hall<'_, R>,
    spool: &HouseSpool<E>,
    queue: u32,
) -> bool {
    let (rt, config) = (hall.rt, &hall.oversight.config);
    (0..config.printer_count()).all(|before| {
        let printer = u32::saturating_add(before, 1);
        config.queue_of(printer) != queue
            || spool.is_stopped(rt, printer)
            || hall.put_offs.is_waiting(rt, printer)
    })
}

/// Whether a queue has a printer for which its jobs wait: one that isn't stopped, or that is tried again by itself.
pub fn is_awaited<R: Wait, E: HouseLedger>(
    hall: &Hall<'_, R>,
    spool: &HouseSpool<E>,
    queue: u32,
) -> bool {
    let (rt, config) = (hall.rt, &hall.oversight.config);
    (0..config.printer_count()).any(|before| {
        let printer = u32::saturating_add(before, 1);
        config.queue_of(printer) == queue
            && (!spool.is_stopped(rt, printer) || hall.put_offs.is_waiting(rt, printer))
    })
}

/// Whether each printer of a queue that isn't stopped gave a job back, and wasn't reached since.
pub fn is_tried<R: Wait, E: HouseLedger>(
    hall: &Hall<'_, R>,
    spool: &HouseSpool<E>,
    queue: u32,
) -> bool {
    let (rt, config) = (hall.rt, &hall.oversight.config);
    (0..config.printer_count()).all(|before| {
        let printer = u32::saturating_add(before, 1);
        config.queue_of(printer) != queue
            || spool.is_stopped(rt, printer)
            || hall.put_offs.is_tried(rt, printer)
    })
}

/// A text with more behind it, or without where memory for that is refused.
fn appended(text: Octets, more: &[u8]) -> Octets
    ensures { AddsTo text result }
{
    let mut octets = text.into_vec();
    // Where memory is refused nothing is appended.
    let _ = octets.extend_from_slice(more);
    Octets::from_vec(octets)
}

/// Which way the jobs of a session go, at a server's spool and the folder of kept jobs.
#[derive(Drop)]
pub struct JobDoors<'h, 'a, R, E: HouseLedger> {
    spool: &'h HouseSpool<E>,
    hall: &'h Hall<'a, R>,
    kept: &'h JobFolder<'a, R>,
    /// The seat of the session.
    seat: u32,
    job: Option<DoorJob>,
}

impl<'h, 'a, R: Files<File = File> + Clock + Log + Wait, E: HouseLedger> JobDoors<'h, 'a, R, E> {
    /// Those of a session at this seat, which has no job in hand.
    pub fn new(
        spool: &'h HouseSpool<E>,
        hall: &'h Hall<'a, R>,
        kept: &'h JobFolder<'a, R>,
        seat: u32,
    ) -> JobDoors<'h, 'a, R, E> {
        JobDoors {
            spool,
            hall,
            kept,
            seat,
            job: None,
        }
    }

    /// Whether no job of the queue at this place would be printed now: it is held, or all its printers stand.
    fn stands(&self, queue: u32, place: usize) -> bool {
        self.kept.is_held(self.hall.rt, place) || is_stopped(self.hall, self.spool, queue)
    }

    /// Whether a job of a queue that is opened now has room in its queue's part of the spool, and for all that it may claim: then it never
    /// waits for a page that another job has.
    fn has_part(&self, lines: &HeldLines<'_>, queue: u32, place: usize) -> bool {
        let config = &self.hall.oversight.config;
        let limit = config.limit_of(queue);
        let used = lines.used(place, limit);
        let part = part_of(config, queue, lines.busy());
        part.free(&used).has_room(limit) && u64::from(limit) <= unclaimed(config, lines)
    }

    /// Opens a job for the queue of this name and number. All that is chosen, and the number of its file, are under one lock.
    fn open_at<Q: Requests>(
        &mut self,
        spool: &mut Q,
        sender: u32,
        name: &[u8],
        queue: u32,
    ) -> Result<OpenedJob, Refusal>
        ensures { (job : ℕ) → Opens Q.carries spool.old sender job name.now result spool.new }
    {
        let (rt, config) = (self.hall.rt, &self.hall.oversight.config);
        let (limit, place) = (config.limit_of(queue), place_of(queue));
        let may_go_through = self.kept.is_read(rt) && !self.stands(queue, place);
        let mut lines = self.kept.disk.lines();
        let has_room = may_go_through && self.has_part(&lines, queue, place);
        let Ok(numbered) = lines.open(self.seat, place, sender, has_room) else {
            warn!(rt; target: PART, "memory was refused: a job is kept that is printed after the next start");
            return Ok(OpenedJob { job: None, limit });
        };
        let number = numbered.number;
        self.job = Some(DoorJob { place, number });
        if numbered.state != ParkState::Coming {
            return Ok(OpenedJob { job: None, limit });
        }
        match spool.open(sender, name) {
            Ok(job) => Ok(OpenedJob {
                job: Some(job),
                limit,
            }),
            Err(Refusal::TableFull | Refusal::AccountFull) => {
                lines.turn_aside(place, number);
                Ok(OpenedJob { job: None, limit })
            }
            Err(refusal) => {
                lines.give_up(self.seat, place, number);
                self.job = None;
                Err(refusal)
            }
        }
    }
}

impl<R: Files<File = File> + Clock + Log + Wait, E: HouseLedger> JobWays
    for JobDoors<'_, '_, R, E> {
    fn open<Q: Requests>(
        &mut self,
        spool: &mut Q,
        sender: u32,
        queue: &[u8],
    ) -> Result<OpenedJob, Refusal> {
        let Some(number) = self.hall.oversight.config.queue_named(queue) else {
            // Why it isn't accepted is the spool's word.
            let job = spool.open(sender, queue)?;
            let job = Some(job);
            return Ok(OpenedJob { job, limit: 0 });
        };
        self.open_at(spool, sender, queue, number)
    }

    fn turns_aside(&mut self) -> bool {
        false
    }

    fn kept(&mut self, octets: u64, pages: u32) {
        let Some(DoorJob { place, number }) = self.job.take() else {
            return;
        };
        let size = JobSize { octets, pages };
        let kept = self.kept.disk.lines().keep(place, number, size);
        if kept.is_some_and(|job| job.state == ParkState::Waiting) {
            self.kept.ring(self.hall.rt);
        }
    }

    fn gone(&mut self) {
        let Some(DoorJob { place, number }) = self.job.take() else {
            return;
        };
        self.kept.disk.lines().give_up(self.seat, place, number);
        self.kept.ring(self.hall.rt);
    }

    fn with_parked(&mut self, queue: &[u8], list: &[Octets], long: bool, text: Octets) -> Octets {
        let (rt, alloc) = (self.hall.rt, self.hall.alloc);
        let Some(queue) = self.hall.oversight.config.queue_named(queue) else {
            return text;
        };
        let query = StateQuery { queue, list, long };
        match self.kept.listing(rt, alloc, &query) {
            Ok(more) => appended(text, more.as_slice()),
            Err(AllocError) => text,
        }
    }

    fn remove_parked(
        &mut self,
        queue: &[u8],
        agent: &[u8],
        list: &[Octets],
        text: Octets,
    ) -> Octets {
        let (rt, alloc) = (self.hall.rt, self.hall.alloc);
        let Some(queue) = self.hall.oversight.config.queue_named(queue) else {
            return text;
        };
        match self.kept.remove_waiting(rt, alloc, queue, agent, list) {
            Ok(more) => appended(text, more.as_slice()),
            Err(AllocError) => text,
        }
    }
}
