//! What one job holds and may still need.

ghost use Rattle.std.specs.Prelude.{◌≡◌, IfOk};

use counts::Counts;
use std::alloc::{AllocError, Global};

/// What one job holds and may still need, of each kind of resource.
#[derive(Debug, Drop)]
pub struct Row {
    /// The job's number of acceptance.
    pub number: u64,
    /// The sender of the job.
    pub sender: u32,
    /// The queue that the job prints on.
    pub queue: u32,
    /// What the job holds.
    pub held: Counts,
    /// What the job may ask for beyond what it holds.
    pub need: Counts,
}

impl Row {
    /// A row that says the same.
    pub fn copy(&self, alloc: Global) -> Result<Row, AllocError>
        ensures { IfOk result (λ row. row ≡ self.now) }
    {
        Ok(Row {
            number: self.number,
            sender: self.sender,
            queue: self.queue,
            held: self.held.copy(alloc)?,
            need: self.need.copy(alloc)?,
        })
    }
}
