//! Which jobs wait in the folder to be fed.

ghost use Rattle.std.specs.Prelude.{◌≡◌, ◌++◌, ◌∷◌, [], length, OnErr, OnOk};
ghost use Rattle.std.specs.List.{list_any, position};
ghost use Rattle.job_files.specs.Waiting.{is_from, jobs_in, pair_of, without_one};

use std::alloc::{AllocError, Global};

/// A job that waits, by its sender's number and its queue's name.
#[derive(Drop)]
struct WaitingJob {
    sender: u32,
    queue: Vec<u8>,
}

/// The jobs that wait in the folder, and are nowhere else.
#[derive(Drop)]
pub struct WaitingJobs {
    alloc: Global,
    jobs: Vec<WaitingJob>,
}

impl WaitingJobs {
    /// No job.
    pub fn new(alloc: Global) -> WaitingJobs
        ensures { jobs_in result ≡ [] }
    {
        WaitingJobs {
            alloc,
            jobs: Vec::new(alloc),
        }
    }

    /// How many jobs wait.
    pub fn len(&self) -> usize
        ensures { result ≡ length (jobs_in self.now) }
    {
        self.jobs.len()
    }

    /// The place of the first job of this sender for this queue.
    fn place_of(&self, sender: u32, queue: &[u8]) -> Option<usize>
        ensures { result ≡ position (λ job. is_from sender queue.now (pair_of job))
            self.now.jobs.items }
    {
        self.jobs.iter().position(|job| job.sender == sender && job.queue.as_slice() == queue)
    }

    /// Whether a job of this sender for this queue waits.
    pub fn has(&self, sender: u32, queue: &[u8]) -> bool
        ensures { result ≡ list_any (is_from sender queue.now) (jobs_in self.now) }
    {
        self.place_of(sender, queue).is_some()
    }

    /// A job of this sender for this queue waits from now on.
    ///
    /// AllocError where memory is refused. Nothing changes then.
    pub fn wait_for(&mut self, sender: u32, queue: &[u8]) -> Result<(), AllocError>
        ensures added { OnOk result (jobs_in self.new
            ≡ jobs_in self.old ++ (sender, queue.now) ∷ []) }
        ensures unchanged { OnErr result (jobs_in self.new ≡ jobs_in self.old) }
    {
        let queue = Vec::from_slice(self.alloc, queue)?;
        self.jobs.push(WaitingJob { sender, queue })?;
        Ok(())
    }

    /// One job of this sender for this queue doesn't wait any more. Nothing changes where there is none.
    pub fn fed(&mut self, sender: u32, queue: &[u8])
        ensures { jobs_in self.new ≡ without_one (is_from sender queue.now) (jobs_in self.old) }
    {
        if let Some(place) = self.place_of(sender, queue) {
            self.jobs.remove(place);
        }
    }
}
