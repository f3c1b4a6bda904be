//! When queues are started again by themselves once a printer of theirs has failed.
//!
//! A start comes N seconds after the last failure. Where the first job after it fails before a page is written, the time to the next
//! start is twice as long, up to ten minutes, until a page is written.

ghost use Rattle.std.specs.Prelude.{◌≡◌, ◌+◌, ◌-◌, ◌^◌, None, false, min, true};
ghost use Rattle.server_notes.specs.Restarting.{longer};

use std::alloc::{AllocError, Global};
use std::num::NonZeroU64;
use std::rt::Clock;
use std::sync::{Mutex, Wait};
use std::time::Instant;

/// The longest time that a failure makes of a shorter one, in seconds.
const LONGEST_SECONDS: u64 = 600;

/// The time from a failure to the start behind it, in seconds, after a start in vain: twice as long, up to ten minutes.
fn longer(seconds: u64) -> u64
    ensures { result ≡ longer seconds }
{
    if seconds < LONGEST_SECONDS {
        (2 * seconds).min(LONGEST_SECONDS)
    } else {
        seconds
    }
}

/// What has failed of a queue since a page of it was written last.
#[derive(Clone, Copy, Debug, PartialEq, Eq)]
pub struct Failures {
    /// The time from the last failure to the start behind it, in seconds.
    pub seconds: u64,
    /// How many jobs have failed.
    pub lost: u64,
    /// It was started again, and no job has failed since.
    is_tried: bool,
}

impl Failures {
    /// Nothing has failed. The first start comes N seconds after a failure.
    fn none(first_seconds: u64) -> Failures
        ensures seconds { result.seconds ≡ first_seconds }
        ensures lost { result.lost ≡ 0 }
        ensures is_tried { result.is_tried ≡ false }
    {
        Failures {
            seconds: first_seconds,
            lost: 0,
            is_tried: false,
        }
    }

    /// One job more has failed.
    fn and_one(self) -> Failures
        ensures anew { self.is_tried ≡ false → result.seconds ≡ self.seconds }
        ensures in_vain { self.is_tried ≡ true → result.seconds ≡ longer self.seconds }
        ensures lost { result.lost ≡ min (self.lost + 1) (2 ^ 64 - 1) }
        ensures is_tried { result.is_tried ≡ false }
    {
        let seconds = if self.is_tried {
            longer(self.seconds)
        } else {
            self.seconds
        };
        Failures {
            seconds,
            lost: self.lost.saturating_add(1),
            is_tried: false,
        }
    }
}

/// A queue whose printers may fail.
#[derive(Clone, Copy)]
struct FailingQueue {
    failures: Failures,
    /// When a job failed last, where the queue waits for its start.
    failed_at: Option<Instant>,
}

impl FailingQueue {
    /// A printer of it stands still since a moment, and a job has failed or, where none is lost, had ended before.
    fn failed(self, is_lost: bool, failed_at: Option<Instant>) -> FailingQueue
        ensures since { result.failed_at ≡ failed_at }
        ensures lost { is_lost ≡ true
            → result.failures.lost ≡ min (self.failures.lost + 1) (2 ^ 64 - 1) }
        ensures anew { is_lost ≡ true → self.failures.is_tried ≡ false
            → result.failures.seconds ≡ self.failures.seconds }
        ensures in_vain { is_lost ≡ true → self.failures.is_tried ≡ true
            → result.failures.seconds ≡ longer self.failures.seconds }
        ensures untried { is_lost ≡ true → result.failures.is_tried ≡ false }
        ensures none_lost { is_lost ≡ false → result.failures ≡ self.failures }
    {
        let failures = if is_lost {
            self.failures.and_one()
        } else {
            self.failures
        };
        FailingQueue {
            failures,
            failed_at,
        }
    }

    /// A page of it was written. The first start comes N seconds after a failure.
    fn printed(self, first_seconds: u64) -> FailingQueue
        ensures since { result.failed_at ≡ self.failed_at }
        ensures seconds { result.failures.seconds ≡ first_seconds }
        ensures lost { result.failures.lost ≡ 0 }
        ensures untried { result.failures.is_tried ≡ false }
    {
        FailingQueue {
            failures: Failures::none(first_seconds),
            ..self
        }
    }

    /// It is started again.
    fn started(self) -> FailingQueue
        ensures since { result.failed_at ≡ None }
        ensures seconds { result.failures.seconds ≡ self.failures.seconds }
        ensures lost { result.failures.lost ≡ self.failures.lost }
        ensures tried { result.failures.is_tried ≡ true }
    {
        FailingQueue {
            failures: Failures {
                is_tried: true,
                ..self.failures
            },
            failed_at: None,
        }
    }
}

/// The queues of a server whose printers failed, where these are started again.
#[derive(Drop)]
pub struct Restarts {
    first_seconds: u64,
    /// By the queues' numbers, from 1; none where no queue is started again.
    queues: Vec<Mutex<FailingQueue>>,
}

impl Restarts {
    /// N queues of which nothing has failed, to be started again M seconds after a failure; where there is no such number,
    /// none is. An error where memory is refused.
    pub fn new(
        alloc: Global,
        queues: usize,
        seconds: Option<NonZeroU64>,
    ) -> Result<Restarts, AllocError> {
        let mut rows = Vec::new(alloc);
        let first_seconds = seconds.map_or(0, NonZeroU64::get);
        if seconds.is_some() {
            for _queue in 0..queues {
                rows.push(Mutex::new(FailingQueue {
                    failures: Failures::none(first_seconds),
                    failed_at: None,
                }))?;
            }
        }
        Ok(Restarts {
            first_seconds,
            queues: rows,
        })
    }

    /// The row of a queue.
    fn row(&self, queue: u32) -> Option<&Mutex<FailingQueue>> {
        self.queues.get((queue as usize).checked_sub(1)?)
    }

    /// A printer of a queue stands still from now on, and a job has failed or, where none is lost, had ended before.
    pub fn note_failure<R: Clock + Wait>(&self, rt: &R, queue: u32, is_lost: bool) {
        if let Some(row) = self.row(queue) {
            let mut row = row.lock(rt);
            *row = row.failed(is_lost, Instant::now(rt).ok());
        }
    }

    /// A page of a queue was written.
    pub fn note_page<R: Wait>(&self, rt: &R, queue: u32) {
        if let Some(row) = self.row(queue) {
            let mut row = row.lock(rt);
            *row = row.printed(self.first_seconds);
        }
    }

    /// What has failed of a queue, where its start is due. It counts as started from then on.
    pub fn take_due<R: Wait>(&self, rt: &R, queue: u32, now: Instant) -> Option<Failures> {
        let mut row = self.row(queue)?.lock(rt);
        let failures = row.failures;
        let waited = now.saturating_duration_since(row.failed_at?).as_secs();
        if waited < failures.seconds {
            return None;
        }
        *row = row.started();
        Some(failures)
    }
}
