//! What a state and a removal tell of jobs.

use crate::state::{File, Job, State};
use control_file::Control;
use lpd_values::FileName;
use std::alloc::{AllocError, Global};
use told_jobs::{ToldFile, ToldJob, ToldJobs};

impl ToldFile for File {
    ghost use Rattle.spool_history.specs.Told.{told_file};
    ghost use Rattle.history_reader.specs.Seen.{file_seen};

    ghost told = { λ f. told_file (file_seen f) };

    fn name(&self) -> &FileName {
        &self.name
    }

    fn count(&self) -> u64 {
        self.count
    }
}

impl ToldJob for Job {
    ghost use Rattle.spool_history.specs.Told.{told_of};
    ghost use Rattle.history_reader.specs.Seen.{job_seen};

    type File = File;

    ghost told = { λ v. told_of (job_seen v) };

    fn is_listed(&self, queue: u32) -> bool {
        self.queue == queue && self.is_received() && !self.ended
    }

    fn control(&self) -> Option<&Control> {
        self.control.as_ref()
    }

    fn files(&self) -> &[File] {
        self.files.as_slice()
    }

    fn handed(&self) -> u64 {
        self.handed
    }

    fn left(&self, alloc: Global) -> Result<u128, AllocError> {
        let places = self.places(alloc)?;
        Ok((places.len() as u128).saturating_sub(u128::from(self.handed)))
    }
}

impl ToldJobs for State {
    ghost use Rattle.std.specs.Prelude.{map};
    ghost use Rattle.spool_history.specs.Now as N;
    ghost use Rattle.spool_history.specs.Told.{told_of};
    ghost use Rattle.account.specs.declared.entry.Outline.{Outline};
    ghost use Rattle.history_reader.specs.Seen.{job_seen};

    type Job = Job;

    ghost Known = { N.Job Outline };

    ghost told = { told_of };

    ghost jobs = { λ v. map job_seen v.jobs.items };

    fn len(&self) -> usize {
        self.jobs.len()
    }

    fn job(&self, i: usize) -> &Job {
        &self.jobs[i]
    }
}
