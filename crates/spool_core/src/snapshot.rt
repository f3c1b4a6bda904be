//! A spool as it is at one moment.

ghost use Rattle.std.specs.Prelude.{◌≡◌, IfOk, map};
ghost use Rattle.held_jobs.specs.Turns.{facts_in};
ghost use Rattle.spool_calls.specs.Calls.{IsRight};
ghost use Rattle.spool_snapshot.specs.Jobs.{seen_job};
ghost use Rattle.spool_snapshot.specs.Shows.{Shows};

use crate::core_state::Core;
use queues::Book;
use spool_snapshot::{SeenJob, Snapshot, seen_job};
use std::alloc::{AllocError, Global};

/// What a snapshot has of the held jobs, in order of acceptance.
fn seen_jobs(alloc: Global, book: &Book) -> Result<Vec<SeenJob>, AllocError>
    ensures { IfOk result (λ jobs. jobs.items ≡ map seen_job (facts_in book.now.jobs)) }
{
    let mut jobs = Vec::with_capacity(alloc, book.len())?;
    for i in 0..book.len() {
        jobs.push(seen_job(alloc, book.job(i))?)?;
    }
    Ok(jobs)
}

impl Core {
    /// The spool as it is now, as plain data: as large as the configuration lets jobs and printers be many. It changes nothing.
    ///
    /// AllocError where memory for it is refused.
    pub fn snapshot(&self) -> Result<Snapshot, AllocError>
        ensures { IfOk result (λ s. IsRight self.now (λ d b h. Shows d b h self.now s)) }
    {
        Ok(Snapshot {
            pages: self.pages_by_place(),
            jobs: seen_jobs(self.alloc, &self.book)?,
            claims: self.table.copy(self.alloc)?,
            printers: Vec::from_slice(self.alloc, self.printers.as_slice())?,
            accepted: self.accepted,
            reserved: self.reserved,
            closed: self.closed,
        })
    }
}
