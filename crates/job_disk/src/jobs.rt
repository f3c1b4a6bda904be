//! What is known of a folder's jobs.

use crate::numbers::FileNumbers;
use job_files::{FileStage, JobEnd, JobFiles, KeptFileName};
use parked_lines::{ParkedJob, ParkedLines};
use std::alloc::{AllocError, Global};
use std::collections::{HashMap, HashSet};

/// What is known of the folder's jobs.
#[derive(Drop)]
pub(crate) struct FolderJobs {
    pub(crate) numbers: FileNumbers,
    pub(crate) files: JobFiles,
    /// Where each job is that comes or is kept, by the number of its file.
    pub(crate) lines: ParkedLines,
    /// The numbers that are taken for jobs which sessions begin, by their seats.
    pub(crate) taken: HashMap<u32, u64>,
    /// The numbers of the files of failed jobs.
    pub(crate) failed: HashSet<u64>,
}

/// The numbers of the files of a stage. AllocError where memory for them is refused.
pub(crate) fn numbers_at(
    alloc: Global,
    names: &[KeptFileName],
    stage: FileStage,
) -> Result<HashSet<u64>, AllocError> {
    let mut numbers = HashSet::new(alloc);
    for name in names {
        if name.stage == stage {
            numbers.insert(name.number)?;
        }
    }
    Ok(numbers)
}

impl FolderJobs {
    /// Of a folder with these files, for this many queues and with room for this many jobs that are passed on. AllocError where memory is
    /// refused.
    pub(crate) fn new(
        alloc: Global,
        names: &[KeptFileName],
        jobs: usize,
        queues: usize,
    ) -> Result<FolderJobs, AllocError> {
        Ok(FolderJobs {
            numbers: FileNumbers::behind(names),
            files: JobFiles::with_room(alloc, jobs)?,
            lines: ParkedLines::new(alloc, queues)?,
            taken: HashMap::new(alloc),
            failed: numbers_at(alloc, names, FileStage::Failed)?,
        })
    }

    /// The number that was taken for the job which a session at this seat begins, else the next one.
    pub(crate) fn number_for(&mut self, seat: u32) -> Option<u64> {
        match self.taken.remove(&seat) {
            Some(number) => Some(number),
            None => self.numbers.take(),
        }
    }

    /// The job whose file has this number, with the place of its queue.
    pub(crate) fn find(&self, file: u64) -> Option<(usize, ParkedJob)> {
        for queue in 0..self.lines.queues() {
            if let Some(job) = self.lines.job(queue, file) {
                return Some((queue, job));
            }
        }
        None
    }

    /// The job whose file has this number stands in no line any more.
    fn end_line(&mut self, file: u64) {
        if let Some((queue, _)) = self.find(file) {
            self.lines.end(queue, file);
        }
    }

    /// As `JobFiles::pass`. A job that has ended stands in no line any more.
    pub(crate) fn pass(&mut self, job: u64, file: u64) -> Result<Option<JobEnd>, AllocError> {
        let end = self.files.pass(job, file)?;
        if end.is_some() {
            self.end_line(file);
        }
        Ok(end)
    }

    /// As `JobFiles::end`. The job stands in no line any more.
    pub(crate) fn end(&mut self, job: u64, end: JobEnd) -> Result<Option<u64>, AllocError> {
        let file = self.files.end(job, end)?;
        if let Some(file) = file {
            self.end_line(file);
        }
        Ok(file)
    }

    /// How many jobs wait to be fed, or are being fed.
    pub(crate) fn waiting(&self) -> usize {
        (0..self.lines.queues()).fold(0usize, |so_far, queue| {
            so_far.saturating_add(self.lines.parked(queue))
        })
    }

    /// How many jobs wait, or the spool has.
    pub(crate) fn left(&self) -> usize {
        (0..self.lines.queues()).fold(0usize, |so_far, queue| {
            let held = self.lines.used(queue, 0).rows as usize;
            so_far.saturating_add(self.lines.parked(queue).saturating_add(held))
        })
    }
}
