//! What needs somebody.

ghost use Rattle.std.specs.Prelude.{◌≡◌, count_by};
ghost use Rattle.status_scene.specs.Concerns.{concerns_of, failed_concern, held_concern, pool_concern, refusal_concern, stopped_concern, unreached_concern};

use crate::refusing::{filling_queue, has_full_pool, has_full_table, pages_for, refusing_queues};
use crate::scene::Scene;
use standings::{stopped_printers, unreached_printers};

/// What needs somebody, so that jobs are taken and printed again.
#[derive(Clone, Copy)]
pub enum Concern {
    /// As many jobs are held as may be: any other one is refused.
    TableFull { jobs: usize },
    /// The account has no room for a job of so many of the queues: it is refused.
    AccountFull { queues: usize, of: usize },
    /// Jobs wait for pages, of which so many, more than half, are held for a queue that isn't printed.
    PoolFull { queue: u32, pages: u64, of: u32 },
    /// So many of the printers aren't reached, or take nothing.
    Unreached { printers: usize, of: usize },
    /// So many of the printers are stopped, and aren't tried again by themselves.
    Stopped { printers: usize, of: usize },
    /// So many of the jobs in the folder that keeps them have failed: they stay there until somebody sends them again or removes them.
    Failed { jobs: u64 },
    /// So many of the queues are held.
    Held { queues: usize, of: usize },
}

/// Jobs are refused.
fn refusal_concern(scene: &Scene<'_>) -> Option<Concern>
    ensures { result ≡ refusal_concern scene.now }
{
    let (config, spool) = (scene.config, scene.spool);
    if has_full_table(config, spool) {
        return Some(Concern::TableFull {
            jobs: spool.jobs.len(),
        });
    }
    let of = config.queues().len();
    match refusing_queues(config, spool, config.queues()) {
        0 => None,
        queues => Some(Concern::AccountFull { queues, of }),
    }
}

/// Jobs wait for pages that nobody gives back.
fn pool_concern(scene: &Scene<'_>) -> Option<Concern>
    ensures { result ≡ pool_concern scene.now }
{
    let (spool, noted) = (scene.spool, &scene.outside.noted);
    if !has_full_pool(spool, noted) {
        return None;
    }
    let (rows, printers) = (spool.claims.rows(), spool.printers.as_slice());
    let total = u64::from(scene.config.pages());
    let queue = filling_queue(noted, printers, rows, total, rows)?;
    Some(Concern::PoolFull {
        queue,
        pages: pages_for(queue, rows),
        of: scene.config.pages(),
    })
}

/// Printers aren't reached.
fn unreached_concern(scene: &Scene<'_>) -> Option<Concern>
    ensures { result ≡ unreached_concern scene.now }
{
    let (all, noted) = (scene.spool.printers.as_slice(), &scene.outside.noted);
    match unreached_printers(noted.printers, all) {
        0 => None,
        printers => Some(Concern::Unreached {
            printers,
            of: all.len(),
        }),
    }
}

/// Printers are stopped.
fn stopped_concern(scene: &Scene<'_>) -> Option<Concern>
    ensures { result ≡ stopped_concern scene.now }
{
    let (all, noted) = (scene.spool.printers.as_slice(), &scene.outside.noted);
    match stopped_printers(noted.printers, all) {
        0 => None,
        printers => Some(Concern::Stopped {
            printers,
            of: all.len(),
        }),
    }
}

/// Kept jobs have failed.
fn failed_concern(scene: &Scene<'_>) -> Option<Concern>
    ensures { result ≡ failed_concern scene.now }
{
    match scene.outside.kept?.failed {
        0 => None,
        jobs => Some(Concern::Failed { jobs }),
    }
}

/// Queues are held.
fn held_concern(scene: &Scene<'_>) -> Option<Concern>
    ensures { result ≡ held_concern scene.now }
{
    let noted = &scene.outside.noted;
    let held = noted.held;
    match held.iter().filter(|is_held| **is_held).count() {
        0 => None,
        queues => Some(Concern::Held {
            queues,
            of: held.len(),
        }),
    }
}

/// What needs somebody, the worst first. None of them is there where nothing waits for a person.
pub fn concerns(scene: &Scene<'_>) -> [Option<Concern>; 6]
    ensures { result ≡ concerns_of scene.now }
{
    [
        refusal_concern(scene),
        pool_concern(scene),
        unreached_concern(scene),
        stopped_concern(scene),
        failed_concern(scene),
        held_concern(scene),
    ]
}
