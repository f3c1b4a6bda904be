//! Whether a segment follows on another.

ghost use Rattle.std.specs.Prelude.{◌≡◌, ◌↔◌, ◌+◌, Some, IsTrue, map, not};
ghost use Rattle.std.specs.List.{list_all};
ghost use Rattle.account.specs.Seen.{base_seen};
ghost use Rattle.segment_text.specs.Follow.{BeginsFirst, BeginsRun, FitsConfig, GoesOn, IsFirstBase, RunFollows};
ghost use Rattle.segment_text.specs.Seen.{begin_seen, head_seen, origin_seen, printer_seen, start_seen};

use crate::head::{Begin, Head, HeadPrinter, Origin, Start};
use account::Base;
use config_values::{Config, Queue};

/// Whether these flags are the same.
fn same_flags(some: &[bool], others: &[bool]) -> bool
    ensures { IsTrue result ↔ (some.now ≡ others.now) }
{
    match (some.split_first(), others.split_first()) {
        (None, None) => true,
        (Some((flag, some)), Some((other, others))) => { flag == other && same_flags(some, others) }
        _ => false,
    }
}

/// Whether two queues are the same.
#[tactic(auto, using(crate::proofs::Same::queue_same))]
fn same_queue(one: &Queue, other: &Queue) -> bool
    ensures { IsTrue result ↔ (one.now ≡ other.now) }
{
    one.name() == other.name() && one.limit() == other.limit() && one.printers() == other.printers()
}

/// Whether these queues are the same.
fn same_queues(some: &[Queue], others: &[Queue]) -> bool
    ensures { IsTrue result ↔ (some.now ≡ others.now) }
{
    match (some.split_first(), others.split_first()) {
        (None, None) => true,
        (Some((queue, some)), Some((other, others))) => {
            same_queue(queue, other) && same_queues(some, others)
        }
        _ => false,
    }
}

/// Whether two configurations are the same.
#[tactic(auto, using(crate::proofs::Same::config_same))]
fn same_config(one: &Config, other: &Config) -> bool
    ensures { IsTrue result ↔ (one.now ≡ other.now) }
{
    one.pages() == other.pages()
        && one.page_size() == other.page_size()
        && one.max_jobs() == other.max_jobs()
        && one.account() == other.account()
        && same_queues(one.queues(), other.queues())
}

/// Whether two printers are the same.
#[tactic(auto, using(crate::proofs::Same::printer_same))]
fn same_printer(one: &HeadPrinter, other: &HeadPrinter) -> bool
    ensures { IsTrue result ↔ (printer_seen one.now ≡ printer_seen other.now) }
{
    one.place.as_slice() == other.place.as_slice() && one.begins == other.begins
}

/// Whether these printers are the same.
fn same_printers(some: &[HeadPrinter], others: &[HeadPrinter]) -> bool
    ensures { IsTrue result ↔ (map printer_seen some.now ≡ map printer_seen others.now) }
{
    match (some.split_first(), others.split_first()) {
        (None, None) => true,
        (Some((printer, some)), Some((other, others))) => {
            same_printer(printer, other) && same_printers(some, others)
        }
        _ => false,
    }
}

/// Whether two bases are the same.
#[tactic(auto, using(crate::proofs::Same::base_same))]
pub fn same_base(one: &Base, other: &Base) -> bool
    ensures { IsTrue result ↔ (base_seen one.now ≡ base_seen other.now) }
{
    one.accepted == other.accepted
        && one.reserved == other.reserved
        && one.closed == other.closed
        && same_flags(one.stopped.as_slice(), other.stopped.as_slice())
}

/// Whether no flag is set.
fn is_all_running(stopped: &[bool]) -> bool
    ensures { result ≡ list_all not stopped.now }
{
    stopped.iter().all(|stopped| !*stopped)
}

/// Whether a base is that of a spool in which nothing has happened.
fn is_first_base(base: &Base) -> bool
    ensures { IsTrue result ↔ IsFirstBase (base_seen base.now) }
{
    base.accepted == 0
        && base.reserved == 0
        && !base.closed
        && is_all_running(base.stopped.as_slice())
}

/// Whether entries begin from nothing: from the base of a spool in which nothing has happened.
fn begins_first(begin: &Begin) -> bool
    ensures { IsTrue result ↔ BeginsFirst (begin_seen begin.now) }
{
    match begin {
        Begin::Base(base) => is_first_base(base),
        Begin::Amid { .. } => false,
    }
}

/// Whether a segment begins a run: its number is 1, nothing is before it, and nothing has happened.
pub fn begins_run(origin: &Origin, start: &Start) -> bool
    ensures { IsTrue result ↔ BeginsRun (origin_seen origin.now) (start_seen start.now) }
{
    origin.segment == 1
        && start.entries == 0
        && start.kinds == 0
        && start.handed == 0
        && begins_first(&start.begin)
}

/// Whether a base can be one of a spool of this configuration: it tells of no more printers than there are, and counts one entry for
/// each stopped one.
pub fn fits_config(config: &Config, base: &Base) -> bool
    ensures { IsTrue result ↔ FitsConfig config.now (base_seen base.now) }
{
    let stopped = base.stopped.iter().filter(|stopped| **stopped);
    base.stopped.len() <= config.printer_count() as usize && base.reserved == stopped.count() as u64
}

/// Whether a number is one more than another.
fn is_next(number: u64, next: u64) -> bool
    ensures { IsTrue result ↔ (next ≡ number + 1) }
{
    u128::from(next) == u128::from(number) + 1
}

/// Whether a segment stands in a run behind one of this head: it has the next number, and the same version, configuration and
/// printers.
pub fn goes_on(head: &Head, next: &Head) -> bool
    ensures { IsTrue result ↔ GoesOn (head_seen head.now) (head_seen next.now) }
{
    next.origin.run == head.origin.run
        && is_next(head.origin.segment, next.origin.segment)
        && next.origin.version == head.origin.version
        && same_config(&next.config, &head.config)
        && same_printers(next.printers.as_slice(), head.printers.as_slice())
}

/// Whether a segment begins the run behind that of one of this head.
pub fn run_follows(head: &Head, next: &Head) -> bool
    ensures { IsTrue result ↔ RunFollows (head_seen head.now) (head_seen next.now) }
{
    is_next(head.origin.run, next.origin.run) && begins_run(&next.origin, &next.start)
}

/// Whether a segment names this digest as that of the segment before it.
pub fn names_digest(origin: &Origin, digest: &[u8; 32]) -> bool
    ensures { IsTrue result ↔ ((origin_seen origin.now).previous ≡ Some digest.now) }
{
    match &origin.previous {
        Some(previous) => previous.as_slice() == digest.as_slice(),
        None => false,
    }
}
