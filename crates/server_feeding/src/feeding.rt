//! The thread that has the spool take the jobs that wait in its folder.
//!
//! At first it reads whose the jobs are that the start found; until it has, each new job waits behind them. Then it takes the first job of
//! each queue's line in turn, where the queue has room in its part of the spool and the spool has room for the job. It has a seat of its
//! own, and waits for no page: a job that finds none is aborted in the spool and waits again, so that no queue holds up another one. A job
//! that is fed gets a new number of acceptance; the number of its file stays.
//!
//! What can't be fed stays, with a warning: nothing that was acknowledged is taken away by anything but its end. A failed job becomes
//! `N.failed` for the same reason. A server that stops feeds nothing more: what waits, waits for the next start.

ghost use Rattle.std.specs.Prelude.{◌≡◌, ◌-◌, false, true};

use config_values::Config;
use kept_recovery::{Fed, feed_one};
use kept_requests::Keeping;
use log::{Log, warn};
use lpd_values::Refusal;
use noted_requests::Noting;
use parked_lines::{FreePart, ParkedJob};
use parked_requests::{Parks, Through};
use server_folders::{FedFolder, JobFolder, StoredJobs, aftermath};
use server_house::{Hall, HouseLedger, HouseSeat, HouseSpool};
use server_sessions::{
    HouseSeated, SessionNotes, is_awaited, is_stopped, is_tried, part_of, unclaimed,
};
use session::{Requests, Seated, SessionEnd};
use shared_spool::Vacancy;
use std::alloc::AllocError;
use std::fs::{File, Files};
use std::rt::Clock;
use std::sync::Wait;
use std::time::Duration;
use std::{fmt, thread};

/// The part of the program that logs what happens here, as the log names it.
const PART: &str = "lpd_daemon::feeding";

/// The longest time between two looks at whether there is room, in milliseconds.
const LOOK_MS: u64 = 100;

/// Why a job that was fed isn't in the spool.
#[derive(Clone, Copy)]
struct Unfed(Fed);

/// Why a job isn't in the spool whose session ended so, where it wasn't refused.
fn why_unserved(end: SessionEnd) -> &'static str {
    match end {
        SessionEnd::Memory => "memory was refused",
        SessionEnd::ReadFault | SessionEnd::WriteFault => "its file can't be read",
        _ => "its file has no whole job",
    }
}

/// Why a job isn't in the spool that was fed so, where it wasn't served.
fn why_unfed(fed: Fed) -> &'static str {
    match fed {
        Fed::Unreadable => "its file can't be read",
        Fed::Headless(_) => "its file isn't that of a kept job",
        _ => "its file can't be opened",
    }
}

impl fmt::Display for Unfed {
    fn fmt<W: fmt::Write>(&self, f: &mut fmt::Formatter<W>) -> fmt::Result {
        match self.0 {
            Fed::Served(SessionEnd::Refused(refusal)) => write!(f, "it is refused: {refusal}"),
            Fed::Served(end) => f.write_str(why_unserved(end)),
            fed => f.write_str(why_unfed(fed)),
        }
    }
}

/// Whether a job that was refused so may be taken once there is room for it.
fn is_of_room(refusal: Refusal) -> bool {
    matches!(
        refusal,
        Refusal::TableFull | Refusal::AccountFull | Refusal::Memory
    )
}

/// Whether a job that was fed is to be fed again, once there is room for it.
fn waits_for_room(fed: Fed) -> bool {
    match fed {
        Fed::Served(SessionEnd::Refused(refusal)) => is_of_room(refusal),
        Fed::Served(end) => end == SessionEnd::Memory,
        _ => false,
    }
}

/// How many jobs a queue may have more in the spool, which has `free` rows for more, where it has `used` there: one whose printer wasn't reached is tried
/// with one job.
fn most_rows(is_tried: bool, used: u64, free: u64) -> u64
    ensures tried { is_tried ≡ true → result ≡ 1 - used }
    ensures other { is_tried ≡ false → result ≡ free }
{
    if is_tried {
        1u64.saturating_sub(used)
    } else {
        free
    }
}

/// What all queues share of a spool, at one look.
#[derive(Clone, Copy)]
struct SharedRoom {
    /// How many pages no job holds or may still claim.
    unclaimed: u64,
    /// How many queues have jobs.
    busy: usize,
}

impl SharedRoom {
    /// As the lines of this folder tell of the jobs: one walk over them.
    fn of<R: Files<File = File> + Log + Wait>(
        config: &Config,
        kept: &JobFolder<'_, R>,
    ) -> SharedRoom {
        let lines = kept.disk.lines();
        SharedRoom {
            unclaimed: unclaimed(config, &lines),
            busy: lines.busy(),
        }
    }
}

/// What carries out the requests of whoever feeds, over any that does so for the spool: with the hand that has the file which is being fed, and what is
/// told of its job.
type FeederOver<'h, 'a, T, R> = Noting<Keeping<T, FedFolder<'h, R>>, SessionNotes<'h, 'a, R>>;

/// The same over a seat.
type Feeder<'h, 'a, R, E> = FeederOver<'h, 'a, Through<HouseSeated<'h, R, E>>, R>;

/// Who feeds kept jobs to the spool of a server.
#[derive(Drop)]
pub struct Feeding<'h, 'a, R, E: HouseLedger> {
    pub spool: &'h HouseSpool<E>,
    pub hall: &'h Hall<'a, R>,
}

impl<R: Files<File = File> + Clock + Log + Wait, E: HouseLedger> Feeding<'_, '_, R, E> {
    /// What is free for each queue, by their places: of its part, and of the spool; nothing where it is held or all its printers stand.
    /// AllocError where memory is refused.
    ///
    /// Where the spool has no job at all each queue has room, whatever it asks for: what doesn't fit then never will.
    fn free_parts(&self, kept: &JobFolder<'_, R>) -> Result<Vec<FreePart>, AllocError> {
        let (rt, config) = (self.hall.rt, &self.hall.oversight.config);
        let vacancy = self.spool.vacancy(rt);
        let shared = SharedRoom::of(config, kept);
        let mut free = Vec::new(self.hall.alloc);
        for place in 0..config.queues().len() {
            let queue = (place as u32).saturating_add(1);
            let stands = kept.is_held(rt, place) || is_stopped(self.hall, self.spool, queue);
            free.push(if stands {
                FreePart::NOTHING
            } else if vacancy.held == 0 {
                FreePart {
                    rows: 1,
                    pages: u32::MAX,
                }
            } else {
                self.free_of(kept, &vacancy, &shared, queue)
            })?;
        }
        Ok(free)
    }

    /// What is free for the queue of this number.
    fn free_of(
        &self,
        kept: &JobFolder<'_, R>,
        vacancy: &Vacancy,
        shared: &SharedRoom,
        queue: u32,
    ) -> FreePart {
        let config = &self.hall.oversight.config;
        let place = queue.saturating_sub(1) as usize;
        if config.reserve_of(queue) >= vacancy.entries {
            return FreePart::NOTHING;
        }
        let used = kept.disk.lines().used(place, config.limit_of(queue));
        let part = part_of(config, queue, shared.busy).free(&used);
        let is_tried = is_tried(self.hall, self.spool, queue);
        let most = most_rows(is_tried, used.rows, vacancy.rows as u64);
        FreePart {
            rows: part.rows.min(most),
            pages: u64::from(part.pages).min(shared.unclaimed) as u32,
        }
    }

    /// Serves the job in a file, as a session of its sender, to whatever carries its requests out and is told of each job.
    fn serve_noting<T: Requests>(
        &self,
        store: &mut StoredJobs<'_, R>,
        feeder: &mut Noting<T, SessionNotes<'_, '_, R>>,
        number: u64,
    ) -> Fed {
        feed_one(self.hall.rt, self.hall.alloc, store, feeder, number)
    }

    /// Serves the job in a file. How that ended, and whether the spool has it.
    fn serve_file<T: Parks>(
        &self,
        store: &mut StoredJobs<'_, R>,
        feeder: &mut FeederOver<'_, '_, T, R>,
        number: u64,
    ) -> (Fed, bool) {
        feeder.inner.hand.folder.take(number);
        let fed = self.serve_noting(store, feeder, number);
        let hand = &mut feeder.inner.hand;
        let is_passed = hand.folder.is_passed();
        hand.let_go();
        if let Some(fault) = hand.folder.take_fault() {
            let becomes = aftermath(fault.is_absence());
            warn!(self.hall.rt; target: PART, "{fault}: {becomes}");
        }
        (fed, is_passed)
    }

    /// Tells why a job that was fed isn't in the spool, and that its file stays where it is still there.
    fn tell_unfed(&self, store: &mut StoredJobs<'_, R>, number: u64, fed: Fed) {
        let rt = self.hall.rt;
        if fed == Fed::Absent {
            warn!(rt; target: PART, "the job in file {number}.job isn't printed: its file is gone");
            return;
        }
        if let Some(fault) = store.take_fault() {
            let why = fault.cause;
            warn!(rt; target: PART, "the job in file {number}.job isn't printed, and stays where it is: {why}");
            return;
        }
        let why = Unfed(fed);
        warn!(rt; target: PART, "the job in file {number}.job isn't printed, and stays where it is: {why}");
    }

    /// Feeds a job that was taken from its line. False where it waits again.
    fn feed(
        &self,
        kept: &JobFolder<'_, R>,
        feeder: &mut Feeder<'_, '_, R, E>,
        place: usize,
        job: ParkedJob,
    ) -> bool {
        let number = job.number;
        let mut store = StoredJobs::new(&kept.disk);
        let (fed, is_passed) = self.serve_file(&mut store, feeder, number);
        if is_passed {
            kept.disk.lines().enter(place, number);
            return true;
        }
        if waits_for_room(fed) || self.hall.ending.is_over() {
            kept.disk.lines().put_back(place, number);
            return false;
        }
        kept.disk.lines().leave(place, number);
        self.tell_unfed(&mut store, number, fed);
        true
    }

    /// Takes the job that is fed next from its line, the queues in turn from this place on. None where none has room, or memory is
    /// refused.
    fn next(&self, kept: &JobFolder<'_, R>, turn: usize) -> Option<(usize, ParkedJob)> {
        if kept.disk.waiting() == 0 {
            return None;
        }
        let free = self.free_parts(kept).ok()?;
        kept.disk.lines().take_next(turn, free.as_slice())
    }

    /// Reads whose the jobs are that the start found.
    fn read_found(&self, kept: &JobFolder<'_, R>) {
        let (rt, alloc) = (self.hall.rt, self.hall.alloc);
        for _ in 0..u64::MAX {
            if self.hall.ending.is_over()
                || !kept.read_one(rt, alloc, &self.hall.oversight.config)
            {
                break;
            }
        }
    }

    /// Has the spool take the jobs that wait in its folder, as there is room, until the server stops. Answers the seat; at once where no
    /// jobs are kept.
    pub fn feed_all(&self, seat: HouseSeat<E>) -> HouseSeat<E> {
        let Some(kept) = &self.hall.kept else {
            return seat;
        };
        let seated = Through {
            inner: Seated::at_once(self.hall.rt, self.spool, seat),
        };
        let keeping = Keeping::new(self.hall.alloc, seated, FedFolder::new(&kept.disk));
        let mut feeder = Noting::new(keeping, SessionNotes::new(self.hall));
        self.read_found(kept);
        let mut turn = 0;
        for _ in self.hall.rt.forever() {
            if self.hall.ending.stops() || self.hall.ending.is_over() {
                break;
            }
            let has_fed = match self.next(kept, turn) {
                Some((place, job)) => {
                    turn = place.saturating_add(1);
                    self.feed(kept, &mut feeder, place, job)
                }
                None => false,
            };
            if !has_fed {
                kept.await_ring(self.hall.rt, LOOK_MS);
            }
        }
        let Noting { inner, .. } = feeder;
        let Keeping { inner, .. } = inner;
        let Through { inner } = inner;
        inner.into_seat()
    }

    /// Whether a job waits in the folder that isn't read yet, or whose queue isn't held and has a printer that goes on by itself; not where
    /// the server stops.
    pub fn has_more(&self) -> bool {
        let (rt, config) = (self.hall.rt, &self.hall.oversight.config);
        let Some(kept) = &self.hall.kept else {
            return false;
        };
        if self.hall.ending.stops() {
            return false;
        }
        if !kept.is_read(rt) {
            return true;
        }
        (0..config.queues().len()).any(|place| {
            let queue = (place as u32).saturating_add(1);
            kept.disk.lines().parked(place) > 0
                && !kept.is_held(rt, place)
                && is_awaited(self.hall, self.spool, queue)
        })
    }

    /// Waits until no job waits in the folder that may be fed, or the server stops: at its end, once nobody sends jobs any more.
    pub fn await_fed(&self) {
        for _ in self.hall.rt.forever() {
            if !self.has_more() {
                break;
            }
            thread::sleep(self.hall.rt, Duration::from_millis(LOOK_MS));
        }
    }
}
