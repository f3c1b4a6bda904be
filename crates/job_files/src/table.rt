//! Which file of the folder each accepted job has.

ghost use Rattle.std.specs.Prelude.{◌≡◌, ◌<◌, ◌≤◌, ◌+◌, ℕ, None, IfOk, IsOk, OnErr, OnOk};
ghost use Rattle.job_files.specs.Table.{Becomes, ended, entry_of, file_in, how_ended, IsJobOf, passed, room_of, Stays};

use std::alloc::{AllocError, Global};
use std::collections::HashMap;

/// How a job ended whose file isn't wanted any more. A job that a close of the spool ends has none of these: its file stays.
#[derive(Clone, Copy, Debug, PartialEq, Eq)]
pub enum JobEnd {
    /// All its pages were printed.
    Done,
    /// It was removed.
    Removed,
    /// It failed at its printer.
    Failed,
}

/// What is known of a job.
#[derive(Clone, Copy, Debug, PartialEq, Eq)]
pub(crate) enum JobEntry {
    /// The number of its file. It hasn't ended.
    File(u64),
    /// How it ended. Its file isn't known yet.
    Ended(JobEnd),
}

/// The files of jobs, by the jobs' numbers of acceptance.
///
/// A job is passed on by the session that has kept it, and ends at a printer or by a removal, in threads of their own: whichever
/// comes second learns what to do with the file. Each job that is accepted whole is passed on once and ends once at most.
#[derive(Drop)]
pub struct JobFiles {
    entries: HashMap<u64, JobEntry>,
}

impl JobFiles {
    /// No job, with room for this many. AllocError where memory for them is refused.
    pub fn with_room(alloc: Global, jobs: usize) -> Result<JobFiles, AllocError>
        ensures empty { IfOk result (λ files. (job : ℕ) → entry_of files job ≡ None) }
        ensures room { IfOk result (λ files. jobs ≤ room_of files) }
    {
        Ok(JobFiles {
            entries: HashMap::with_capacity(alloc, jobs)?,
        })
    }

    /// The job's file has this number. Answers how the job ended, if it has: nothing is known of it then, and the caller acts on
    /// the file.
    ///
    /// AllocError where there is no room and memory for more is refused. Nothing changes then.
    pub fn pass(&mut self, job: u64, file: u64) -> Result<Option<JobEnd>, AllocError>
        ensures answer { IfOk result (λ end. end ≡ how_ended (entry_of self.old job)) }
        ensures changed { OnOk result (Becomes self.old self.new job
            (passed (entry_of self.old job) file)) }
        ensures unchanged { OnErr result (Stays self.old self.new) }
        ensures succeeds { 0 < room_of self.old → IsOk result }
        ensures room { room_of self.old ≤ room_of self.new + 1 }
    {
        if let Some(JobEntry::Ended(end)) = self.entries.get(&job).copied() {
            self.entries.remove(&job);
            return Ok(Some(end));
        }
        self.entries.insert(job, JobEntry::File(file))?;
        Ok(None)
    }

    /// The number of a job's file, where that is known.
    pub fn file_of(&self, job: u64) -> Option<u64>
        ensures { result ≡ file_in (entry_of self.now job) }
    {
        match self.entries.get(&job) {
            Some(JobEntry::File(file)) => Some(*file),
            Some(JobEntry::Ended(_)) | None => None,
        }
    }

    /// The job whose file has this number, where one is known that hasn't ended.
    pub fn job_of(&self, file: u64) -> Option<u64>
        ensures { IsJobOf self.now file result }
    {
        for (job, entry) in &self.entries {
            if *entry == JobEntry::File(file) {
                return Some(*job);
            }
        }
        None
    }

    /// The job ended. Answers the number of its file, if that is known: nothing is known of the job then, and the caller acts on
    /// the file. Else how it ended is known, until the job is passed on.
    ///
    /// AllocError where there is no room and memory for more is refused. Nothing changes then.
    pub fn end(&mut self, job: u64, end: JobEnd) -> Result<Option<u64>, AllocError>
        ensures answer { IfOk result (λ file. file ≡ file_in (entry_of self.old job)) }
        ensures changed { OnOk result (Becomes self.old self.new job
            (ended (entry_of self.old job) end)) }
        ensures unchanged { OnErr result (Stays self.old self.new) }
        ensures succeeds { 0 < room_of self.old → IsOk result }
        ensures room { room_of self.old ≤ room_of self.new + 1 }
    {
        if let Some(JobEntry::File(file)) = self.entries.get(&job).copied() {
            self.entries.remove(&job);
            return Ok(Some(file));
        }
        self.entries.insert(job, JobEntry::Ended(end))?;
        Ok(None)
    }
}
