//! Whether jobs are refused, or wait for pages that nobody gives back.

ghost use Rattle.std.specs.Prelude.{◌≡◌, ◌<◌, ◌^◌};
ghost use Rattle.standings.specs.Printers.{count_at, one_if};
ghost use Rattle.status_scene.specs.Refusing.{filling_queue, fills_pool, has_full_pool, has_full_table, is_refused_at, is_stuck, pages_for, refuses};

use claims::Row;
use config_values::{Config, Queue};
use spool_calls::Printer;
use spool_snapshot::Snapshot;
use standings::{EdgeNotes, is_held, pages_of, reached_printers};

/// Whether as many jobs are held as may be: a job of any queue is refused.
pub(crate) fn has_full_table(config: &Config, spool: &Snapshot) -> bool
    ensures { result ≡ has_full_table config.now spool.now }
{
    config.max_jobs() as usize <= spool.jobs.len()
}

/// Whether a job of the queue of this number is refused: as many are held as may be, or the account has no room for it.
fn refuses(config: &Config, spool: &Snapshot, queue: u32) -> bool
    ensures { result ≡ refuses config.now spool.now queue }
{
    let left = config.account().saturating_sub(spool.reserved);
    has_full_table(config, spool) || left <= config.reserve_of(queue)
}

/// Whether a job of the queue at a place is refused.
pub fn is_refused_at(config: &Config, spool: &Snapshot, at: usize) -> bool
    requires { at < 2 ^ 63 }
    ensures { result ≡ is_refused_at config.now spool.now at }
{
    match u32::try_from(at + 1) {
        Ok(queue) => refuses(config, spool, queue),
        Err(_) => false,
    }
}

/// 1 where it is so, else 0.
fn one_if(so: bool) -> usize
    ensures { result ≡ one_if so }
{
    usize::from(so)
}

/// How many queues refuse a job.
pub(crate) fn refusing_queues(config: &Config, spool: &Snapshot, queues: &[Queue]) -> usize
    ensures { result ≡ count_at (λ at _. is_refused_at config.now spool.now at) 0 queues.now }
{
    let mut count = 0;
    for i in 0..queues.len() {
        count += one_if(is_refused_at(config, spool, i));
    }
    count
}

/// Whether the pool is full: no page is free, or a job waits for a page all the same.
pub fn has_full_pool(spool: &Snapshot, noted: &EdgeNotes<'_>) -> bool
    ensures { result ≡ has_full_pool spool.now noted.now }
{
    spool.pages.free == 0 || !noted.put_off.is_empty()
}

/// Whether nothing is printed of the queue of this number: it is held, or no printer of it runs and is reached.
fn is_stuck(noted: &EdgeNotes<'_>, printers: &[Printer], queue: u32) -> bool
    ensures { result ≡ is_stuck noted.now printers.now queue }
{
    is_held(noted.held, queue) || reached_printers(noted.printers, queue, printers) == 0
}

/// Whether the jobs of a queue hold more than half of this many pages, and nothing is printed of it.
fn fills_pool(
    noted: &EdgeNotes<'_>,
    printers: &[Printer],
    all: &[Row],
    total: u64,
    queue: u32,
) -> bool
    ensures { result ≡ fills_pool noted.now printers.now all.now total queue }
{
    total / 2 < pages_for(queue, all) && is_stuck(noted, printers, queue)
}

/// The first queue of these rows that fills a pool of this many pages, where these are the rows of all jobs.
pub(crate) fn filling_queue(
    noted: &EdgeNotes<'_>,
    printers: &[Printer],
    all: &[Row],
    total: u64,
    rows: &[Row],
) -> Option<u32>
    ensures { result ≡ filling_queue noted.now printers.now all.now total rows.now }
{
    let (first, rest) = rows.split_first()?;
    if fills_pool(noted, printers, all, total, first.queue) {
        return Some(first.queue);
    }
    filling_queue(noted, printers, all, total, rest)
}

/// How many pages the jobs of a queue hold.
pub(crate) fn pages_for(queue: u32, rows: &[Row]) -> u64
    ensures { result ≡ pages_for queue rows.now }
{
    let Some((first, rest)) = rows.split_first() else {
        return 0;
    };
    let pages = if first.queue == queue {
        u64::from(pages_of(&first.held))
    } else {
        0
    };
    pages.saturating_add(pages_for(queue, rest))
}
