//! What may be done to a queue: to remove jobs of it, and to start its stopped printers.

ghost use Rattle.std.specs.Prelude.{◌≡◌, ◌↔◌, IsTrue, map};
ghost use Rattle.std.specs.List.{AllByRecursion};
ghost use Rattle.std.specs.List.Sorted.{IsStrictlyIncreasing};
ghost use Rattle.spool_history.specs.Events as E;
ghost use Rattle.spool_history.specs.Legal as L;
ghost use Rattle.account.specs.Seen.{octets};
ghost use Rattle.history_reader.specs.Seen.{job_seen, printer_seen, state_seen};
ghost use Rattle.history_legality.specs.Asked.{HasStopped};

use config_values::Config;
use history_reader::{Job, Printer, State, printer_numbered};

/// Whether a job of a queue may be removed.
fn may_be_removed(job: &Job, queue: u32) -> bool
    ensures { IsTrue result ↔ L.MayBeRemoved queue (job_seen job.now) }
{
    job.queue == queue && job.is_received() && !job.ended
}

/// Whether a job of this number and queue may be removed.
fn some_may_be_removed(jobs: &[Job], queue: u32, number: u64) -> bool
    ensures { IsTrue result ↔ L.HasJob (map job_seen jobs.now) number (L.MayBeRemoved queue) }
{
    let Some((job, rest)) = jobs.split_first() else {
        return false;
    };
    if job.number == number && may_be_removed(job, queue) {
        return true;
    }
    some_may_be_removed(rest, queue, number)
}

/// Whether for each of these numbers a job of it and of this queue may be removed.
fn all_may_be_removed(jobs: &[Job], queue: u32, numbers: &[u64]) -> bool
    ensures { IsTrue result
        ↔ AllByRecursion (λ j. L.HasJob (map job_seen jobs.now) j
        (L.MayBeRemoved queue)) numbers.now }
{
    let Some((number, rest)) = numbers.split_first() else {
        return true;
    };
    some_may_be_removed(jobs, queue, *number) && all_may_be_removed(jobs, queue, rest)
}

/// Whether each number is below the next.
pub(crate) fn rises(numbers: &[u64]) -> bool
    ensures { IsTrue result ↔ IsStrictlyIncreasing numbers.now }
{
    for place in 1..numbers.len() {
        if numbers[place - 1] >= numbers[place] {
            return false;
        }
    }
    true
}

/// Whether jobs of these numbers may be removed from a queue.
pub(crate) fn may_remove(config: &Config, state: &State, queue: u32, numbers: &[u64]) -> bool
    ensures { IsTrue result
        ↔ L.May octets (state_seen config.now state.now) (E.Event.Removed queue numbers.now) }
{
    if state.closed || !config.is_queue(queue) || numbers.is_empty() || !rises(numbers) {
        return false;
    }
    all_may_be_removed(state.jobs.as_slice(), queue, numbers)
}

/// Whether one of the printers up to this number serves this queue and is stopped.
fn has_stopped(state: &State, printers: u32, queue: u32) -> bool
    ensures { IsTrue result
        ↔ HasStopped (map printer_seen state.now.printers.items) printers queue }
{
    for before in 0..printers {
        let printer = printer_numbered(state, before + 1);
        if printer.queue == queue && printer.stopped {
            return true;
        }
    }
    false
}

/// Whether the stopped printers of a queue may be started.
pub(crate) fn may_start(config: &Config, state: &State, queue: u32) -> bool
    ensures { IsTrue result
        ↔ L.May octets (state_seen config.now state.now) (E.Event.Started queue) }
{
    !state.closed && config.is_queue(queue) && has_stopped(state, config.printer_count(), queue)
}
