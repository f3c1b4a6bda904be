//! What is told of a queue's jobs that wait in the folder, and their removal.

use crate::kept::JobFolder;
use crate::told::{WaitingJob, WaitingJobs, places_of};
use job_disk::FileRemoval;
use log::{Log, warn};
use lpd_values::Octets;
use std::alloc::{AllocError, Global};
use std::fs::{File, Files};
use std::sync::Wait;
use told_jobs::{StateQuery, is_picked, listing, removal_text};

/// How many jobs of a queue are told of, at most.
const MOST_TOLD: usize = 1_000;

/// A queue, by its number.
fn place_of(queue: u32) -> usize {
    queue.saturating_sub(1) as usize
}

impl<R: Files<File = File> + Log + Wait> JobFolder<'_, R> {
    /// The job in this file, which waits in the queue of this number. None where it doesn't any more, or can't be read.
    fn waiting_job(&self, rt: &R, alloc: Global, queue: u32, number: u64) -> Option<WaitingJob> {
        let job = self.filed(rt, alloc, number).ok()??;
        let places = places_of(
            job.control.prints.as_slice(),
            job.files.as_slice(),
            self.page_size,
        );
        Some(WaitingJob {
            number,
            queue,
            control: job.control,
            files: job.files,
            places,
        })
    }

    /// What is said of the jobs that wait in the folder, for a question for a queue's state: how many they are, the lines of the first
    /// 1,000 of them that it chooses, and how many more there are. Nothing where none waits.
    ///
    /// AllocError where memory is refused.
    pub fn listing(
        &self,
        rt: &R,
        alloc: Global,
        query: &StateQuery,
    ) -> Result<Vec<u8>, AllocError> {
        let place = place_of(query.queue);
        let (count, first) = {
            let lines = self.disk.lines();
            (lines.parked(place), lines.listed(alloc, place, MOST_TOLD)?)
        };
        if count == 0 {
            return Ok(Vec::new(alloc));
        }
        let mut waiting = WaitingJobs {
            jobs: Vec::new(alloc),
        };
        for parked in &first {
            if let Some(job) = self.waiting_job(rt, alloc, query.queue, parked.number) {
                waiting.jobs.push(job)?;
            }
        }
        let mut text = format!(in alloc; "{count} jobs wait in the folder\n")?.into_bytes();
        text.extend_from_slice(listing(alloc, &waiting, query)?.as_slice())?;
        let more = count.saturating_sub(first.len());
        if more > 0 {
            let line = format!(in alloc; ".. and {more} more\n")?;
            text.extend_from_slice(line.as_bytes())?;
        }
        Ok(text)
    }

    /// Removes the jobs that wait in the folder and that an agent may remove by these words, and answers a line for each. Nothing where there
    /// is none: without a word none is meant, since none is being printed.
    ///
    /// AllocError where memory is refused.
    pub fn remove_waiting(
        &self,
        rt: &R,
        alloc: Global,
        queue: u32,
        agent: &[u8],
        words: &[Octets],
    ) -> Result<Vec<u8>, AllocError> {
        let mut removed = WaitingJobs {
            jobs: Vec::new(alloc),
        };
        if words.is_empty() {
            return Ok(Vec::new(alloc));
        }
        let parked = self
            .disk
            .lines()
            .listed(alloc, place_of(queue), usize::MAX)?;
        for parked in &parked {
            let Some(job) = self.waiting_job(rt, alloc, queue, parked.number) else {
                continue;
            };
            if !is_picked(queue, agent, words, &job) {
                continue;
            }
            match self.remove(rt, job.number) {
                Ok(FileRemoval::Gone) => removed.jobs.push(job)?,
                Ok(FileRemoval::IsElsewhere) => {}
                Err(fault) => warn!(rt; "{fault}: the job isn't removed"),
            }
        }
        if removed.jobs.is_empty() {
            return Ok(Vec::new(alloc));
        }
        removal_text(alloc, &removed, queue, agent, words)
    }
}
