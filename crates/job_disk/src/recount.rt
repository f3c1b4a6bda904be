//! What somebody took away from a folder, or put there, while a server has it: it is counted no more, or from then on.

use crate::disk::Disk;
use crate::jobs::numbers_at;
use job_files::{FileStage, KeptFileName};
use std::alloc::{AllocError, Global};
use std::collections::HashSet;
use std::fs::{File, Files};
use std::io;
use std::sync::Wait;

/// What a folder has, as it was read once more.
#[derive(Clone, Copy, Debug, PartialEq, Eq)]
pub struct Recount {
    /// How many jobs' files are there, of any stage.
    pub files: usize,
    /// How many jobs waited whose files are gone. They wait no more.
    pub gone: usize,
}

/// Those of these numbers that aren't among the others. AllocError where memory for them is refused.
fn not_among(
    alloc: Global,
    numbers: &HashSet<u64>,
    others: &HashSet<u64>,
) -> Result<Vec<u64>, AllocError> {
    let mut left = Vec::new(alloc);
    for number in numbers.iter() {
        if !others.contains(number) {
            left.push(*number)?;
        }
    }
    Ok(left)
}

impl<R: Files<File = File> + Wait> Disk<'_, R> {
    /// Counts the failed jobs by these numbers, which the folder had. What came or went since is looked at by its name, while nobody else
    /// counts: so each is counted just where its file is there.
    fn recount_failed(&self, listed: &HashSet<u64>) -> Result<(), AllocError> {
        let stage = FileStage::Failed;
        let mut jobs = self.jobs();
        for number in &not_among(self.alloc, &jobs.failed, listed)? {
            let number = *number;
            if self.is_gone(KeptFileName { number, stage }) {
                jobs.failed.remove(&number);
            }
        }
        for number in &not_among(self.alloc, listed, &jobs.failed)? {
            let number = *number;
            if !self.is_gone(KeptFileName { number, stage }) {
                jobs.failed.insert(number)?;
            }
        }
        Ok(())
    }

    /// The job in this file waits no more in the queue at this place, where it waits there and its file is gone. Whether it did.
    fn forget(&self, queue: usize, number: u64) -> bool {
        let stage = FileStage::Whole;
        let mut jobs = self.jobs();
        let job = jobs.lines.job(queue, number);
        if !job.is_some_and(|job| job.state.is_waiting()) {
            return false;
        }
        // Under the lock, so that nobody feeds it meanwhile.
        if !self.is_gone(KeptFileName { number, stage }) {
            return false;
        }
        jobs.lines.end(queue, number);
        true
    }

    /// Has the jobs of the queue at this place wait no more whose files are gone, where these are the numbers of the whole files that the
    /// folder had. Answers how many they are.
    fn forget_of(&self, queue: usize, listed: &HashSet<u64>) -> Result<usize, AllocError> {
        let parked = self.lines().listed(self.alloc, queue, usize::MAX)?;
        let mut gone = 0usize;
        for job in &parked {
            if !listed.contains(&job.number) && self.forget(queue, job.number) {
                gone = gone.saturating_add(1);
            }
        }
        Ok(gone)
    }

    /// Reads the folder once more: files of failed jobs and of jobs that wait are counted from then on as they are there.
    ///
    /// An error where it can't be read, or memory is refused.
    pub fn recount(&self) -> io::Result<Recount> {
        let names = self.names()?;
        let failed = numbers_at(self.alloc, names.as_slice(), FileStage::Failed)?;
        self.recount_failed(&failed)?;
        let whole = numbers_at(self.alloc, names.as_slice(), FileStage::Whole)?;
        let queues = self.jobs().lines.queues();
        let mut gone = 0usize;
        for queue in 0..queues {
            gone = gone.saturating_add(self.forget_of(queue, &whole)?);
        }
        Ok(Recount {
            files: names.len(),
            gone,
        })
    }
}
