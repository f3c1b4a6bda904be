//! The thread that gives back the pages of jobs whose peers are gone, has jobs leave the spool that can't be printed now, and starts queues
//! again.

ghost use Rattle.std.specs.Int.NonZero.{non_zero_u64_get};
ghost use Rattle.std.specs.Prelude.{◌≡◌, ◌↔◌, ◌⊎◌, ◌+◌, ◌-◌, ◌^◌, ◌≤◌, IsTrue, MatchOption, false, min, true};

use crate::unloading::Unloading;
use log::{Log, warn};
use server_house::{House, HouseLedger, HouseSeat};
use shared_spool::{AbortError, Waiting};
use std::alloc::AllocError;
use std::fs::{File, Files};
use std::num::NonZeroU64;
use std::rt::Clock;
use std::sync::Wait;
use std::thread;
use std::time::Duration;

/// The part of the program that logs what happens here, as the log names it.
const PART: &str = "lpd_daemon::watching";

/// The time between two looks at whether the server ends, in milliseconds.
const STEP_MS: u64 = 250;

/// After how many of these steps come looks for peers that are gone.
const STEPS: u64 = 4;

/// The most often that one look judges a session which goes on and waits again meanwhile.
const MOST_JUDGED: u32 = 4;

/// How many octets that a peer has sent are looked at, at most.
const LOOKED_AT_OCTETS: usize = 1 << 20;

/// What a spool is at while sessions wait: whoever compares two of these sees whether anything
/// happened in between.
#[derive(PartialEq, Drop)]
struct Sample {
    waiting: Vec<Waiting>,
    pages: [usize; 4],
    counted: u64,
}

/// For how many seconds nothing has happened, a second later: where it is the same as then, and for
/// as many until then.
fn still_seconds(is_same: bool, seconds: u64) -> u64
    ensures same { is_same ≡ true → result ≡ min (seconds + 1) (2 ^ 64 - 1) }
    ensures other { is_same ≡ false → result ≡ 0 }
{
    if is_same {
        seconds.saturating_add(1)
    } else {
        0
    }
}

/// Whether nothing has happened for as long as a peer may be silent, where that is bounded.
fn is_too_long(silence: Option<NonZeroU64>, seconds: u64) -> bool
    ensures { MatchOption silence (result ≡ false)
        (λ silence. IsTrue result ↔ (non_zero_u64_get silence ≤ seconds)) }
{
    silence.is_some_and(|silence| silence.get() <= seconds)
}

/// For how many seconds nothing has happened.
#[derive(Drop)]
struct Stillness {
    // What the spool was at a second ago.
    last: Sample,
    seconds: u64,
}

impl Stillness {
    /// The spool is at this, a second later.
    fn see(&mut self, sample: Sample)
        ensures last { self.new.last ≡ sample }
        ensures seconds { (self.new.seconds ≡ 0)
            ⊎ (self.new.seconds ≡ min (self.old.seconds + 1) (2 ^ 64 - 1)) }
    {
        self.seconds = still_seconds(sample == self.last, self.seconds);
        self.last = sample;
    }
}

/// Who looks after the sessions that wait for pages.
#[derive(Drop)]
struct Watcher<'h, 'a, R, E: HouseLedger> {
    house: House<'h, 'a, R, E>,
    seat: HouseSeat<E>,
    still: Stillness,
}

impl<R: Clock + Log + Wait, E: HouseLedger> Watcher<'_, '_, R, E> {
    /// Ends the job of a session that waits for exactly this: the session is answered that it isn't open any more. Answers what the
    /// session waits for now where it went on and waits again.
    ///
    /// It is ended at the spool, through the watcher's own seat, and not through the `Requests` of the session: that session is inside
    /// one of their calls, and has them for itself until it is answered. The answer goes through them, so whoever stands between learns
    /// of the end there, as of any refusal.
    fn give_up(&mut self, waiting: Waiting, why: &str) -> Option<Waiting> {
        let House { spool, hall } = self.house;
        let rt = hall.rt;
        match spool.abort_waiting(rt, &mut self.seat, waiting) {
            Ok(()) => {
                warn!(rt; target: PART, "job {}, which waits for a page, is ended: {why}", waiting.job);
                None
            }
            Err(AbortError::Moved(now)) => now,
            Err(AbortError::NotOpen) => None,
        }
    }

    /// Ends the job of a session that waits where its peer is gone. Where the session went on after
    /// it was seen to wait, what was seen of its connection may be of another wait: so it is judged
    /// anew by what it waits for then.
    fn judge(&mut self, waiting: Waiting, buffer: &mut [u8]) {
        let hall = self.house.hall;
        let mut now = Some(waiting);
        for _ in 0..MOST_JUDGED {
            let Some(waiting) = now else {
                return;
            };
            if !hall.posts.is_gone(hall.rt, waiting, buffer) {
                return;
            }
            now = self.give_up(waiting, "its peer is gone");
        }
    }

    /// Looks at those that wait, once a second.
    fn look(&mut self, buffer: &mut [u8]) -> Result<(), AllocError> {
        let House { spool, hall } = self.house;
        let waiting = spool.waiting(hall.rt, hall.alloc)?;
        let pages = spool.pages(hall.rt);
        let sample = Sample {
            waiting,
            pages: [pages.free, pages.chained, pages.lent, pages.out],
            counted: spool.counted_reserve(hall.rt),
        };
        for waiting in sample.waiting.iter() {
            self.judge(*waiting, buffer);
        }
        self.still.see(sample);
        if is_too_long(hall.limits.silence, self.still.seconds) {
            let why = "nothing has happened for as long as a peer may be silent";
            for at in 0..self.still.last.waiting.len() {
                // Whoever went on since is no longer silent.
                if let Some(waiting) = self.still.last.waiting.get(at).copied() {
                    self.give_up(waiting, why);
                }
            }
        }
        Ok(())
    }
}

/// Ends jobs that wait for a page and whose peers are gone, until the server ends; and where
/// nothing at all happens for as long as a peer may be silent, all that wait. Has jobs leave the spool that can't be printed now, and starts
/// queues again where that is due. Answers the seat.
pub fn watch<R: Files<File = File> + Clock + Log + Wait, E: HouseLedger>(
    house: House<'_, '_, R, E>,
    seat: HouseSeat<E>,
) -> HouseSeat<E> {
    let hall = house.hall;
    let Ok(mut buffer) = vec![in hall.alloc; 0u8; LOOKED_AT_OCTETS] else {
        warn!(hall.rt; target: PART, "memory was refused: peers that are gone aren't looked for");
        return seat;
    };
    let Ok(mut unloading) = Unloading::new(house) else {
        warn!(hall.rt; target: PART, "memory was refused: peers that are gone aren't looked for");
        return seat;
    };
    let last = Sample {
        waiting: Vec::new(hall.alloc),
        pages: [0; 4],
        counted: 0,
    };
    let mut watcher = Watcher {
        house,
        seat,
        still: Stillness { last, seconds: 0 },
    };
    let mut step = 0u64;
    for _ in hall.rt.forever() {
        if hall.ending.is_closed() {
            break;
        }
        thread::sleep(hall.rt, Duration::from_millis(STEP_MS));
        if unloading.look(&mut watcher.seat).is_err() {
            warn!(hall.rt; target: PART, "memory was refused: jobs that can't be printed now stay in the spool");
        }
        house.start_all_due(&mut watcher.seat);
        step = step.saturating_add(1) % STEPS;
        if step != 0 {
            continue;
        }
        if watcher.look(buffer.as_mut_slice()).is_err() {
            warn!(hall.rt; target: PART, "memory was refused to look for peers that are gone");
        }
    }
    watcher.seat
}
