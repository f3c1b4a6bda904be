//! Parts of a spool whose jobs aren't kept in a folder: each queue has its own, and no more, so that a printer that is off fills its own
//! part alone. A job over it waits a second at most where its queue prints; then, and at once where it doesn't, it is refused for now, as where
//! the table of jobs is full.

use crate::job_doors::{is_stopped, part_of};
use config_values::Config;
use lpd_values::Refusal;
use parked_lines::PartUse;
use parked_requests::QueueParts;
use request_session::Requests;
use server_house::{Hall, HouseLedger, HouseSpool};
use shared_spool::{SeenJob, Snapshot};
use standings::{JobStage, pages_of, stage_of};
use std::rt::Clock;
use std::sync::{Mutex, MutexGuard, Wait};
use std::thread;
use std::time::Duration;

/// How often it is looked whether a queue has room, and how many milliseconds apart.
const LOOKS: u32 = 100;

const LOOK_MS: u64 = 10;

/// What a queue's part of the spool has at one look.
#[derive(Clone, Copy)]
enum PartRoom {
    /// Room for one job more.
    Free,
    /// None, but its jobs are being printed.
    Full,
    /// None, and none of its jobs is printed now; or memory to look is refused.
    Standing,
}

/// Whether a job is held by a queue: one that has ended takes nothing any more.
fn is_held_by(queue: u32, job: &SeenJob) -> bool {
    job.queue == queue && !matches!(stage_of(job), JobStage::Ended)
}

/// What a queue's jobs have of a spool that shows itself so: rows of its table, and pages that they hold or may still claim.
fn used_by(spool: &Snapshot, queue: u32) -> PartUse {
    let nothing = PartUse { rows: 0, pages: 0 };
    let claims = spool.claims.rows().iter();
    spool
        .jobs
        .iter()
        .zip(claims)
        .fold(nothing, |used, (job, row)| {
            if !is_held_by(queue, job) {
                return used;
            }
            let (holds, needs) = (pages_of(&row.held), pages_of(&row.need));
            PartUse {
                rows: used.rows.saturating_add(1),
                pages: used
                    .pages
                    .saturating_add(u64::from(holds))
                    .saturating_add(u64::from(needs)),
            }
        })
}

/// How many queues have jobs in a spool that shows itself so.
fn busy_in(spool: &Snapshot, config: &Config) -> usize {
    (0..config.queues().len())
        .filter(|place| {
            let queue = (*place as u32).saturating_add(1);
            spool.jobs.iter().any(|job| is_held_by(queue, job))
        })
        .count()
}

/// Says whether a job has room in its queue's part of a server's spool.
#[derive(Drop)]
pub struct PartDoors<'h, 'a, R, E: HouseLedger> {
    spool: &'h HouseSpool<E>,
    hall: &'h Hall<'a, R>,
    /// Held while a job is opened.
    turn: &'h Mutex<()>,
}

impl<'h, 'a, R: Clock + Wait, E: HouseLedger> PartDoors<'h, 'a, R, E> {
    /// At this spool; one job at a time is opened.
    pub fn new(
        spool: &'h HouseSpool<E>,
        hall: &'h Hall<'a, R>,
        turn: &'h Mutex<()>,
    ) -> PartDoors<'h, 'a, R, E> {
        PartDoors { spool, hall, turn }
    }

    /// What a queue's part has now.
    fn room_of(&self, queue: u32) -> PartRoom {
        let (rt, config) = (self.hall.rt, &self.hall.oversight.config);
        let Ok(sight) = self.spool.sight(rt, self.hall.alloc) else {
            return PartRoom::Standing;
        };
        let used = used_by(&sight.spool, queue);
        let part = part_of(config, queue, busy_in(&sight.spool, config));
        if part.free(&used).has_room(config.limit_of(queue)) {
            return PartRoom::Free;
        }
        let is_held = sight.held.get(queue as usize).copied().unwrap_or(false);
        if is_held || is_stopped(self.hall, self.spool, queue) {
            PartRoom::Standing
        } else {
            PartRoom::Full
        }
    }

    /// Waits until a queue has room, and nobody else opens a job meanwhile; none where it has none for a second, or none of its jobs is
    /// printed.
    fn await_room(&self, queue: u32) -> Option<MutexGuard<'h, ()>> {
        for _ in 0..LOOKS {
            let turn = self.turn.lock(self.hall.rt);
            match self.room_of(queue) {
                PartRoom::Free => return Some(turn),
                PartRoom::Standing => return None,
                PartRoom::Full => {}
            }
            drop(turn);
            thread::sleep(self.hall.rt, Duration::from_millis(LOOK_MS));
        }
        None
    }
}

impl<R: Clock + Wait, E: HouseLedger> QueueParts for PartDoors<'_, '_, R, E> {
    fn open<Q: Requests>(
        &mut self,
        spool: &mut Q,
        sender: u32,
        queue: &[u8],
    ) -> Result<u64, Refusal> {
        let Some(number) = self.hall.oversight.config.queue_named(queue) else {
            // Why it isn't accepted is the spool's word.
            return spool.open(sender, queue);
        };
        let Some(turn) = self.await_room(number) else {
            return Err(Refusal::TableFull);
        };
        let opened = spool.open(sender, queue);
        drop(turn);
        opened
    }
}
