//! What is noted of the jobs of a server at its edge: for the log, and for who looks at its status.
//!
//! ```text
//!             came whole              was left by its printer, or removed
//!   accepted ------------> received -------------------------------------> told, and forgotten
//!       |                                                                       ^
//!       +------------------- its session has given it up -----------------------+
//! ```
//!
//! Jobs are noted where a session carries requests out, where a printer leaves a job and at removals, and refusals where a session ends
//! by one: no call of the core tells it. Without `--status` and `--log-jobs` there is no book and nothing is counted. What is counted
//! begins at 0 with the server, and jobs that the close ends are counted as nothing.
//!
//! A printer may be through with a job before its session has told that it came whole: then whoever tells the end tells `received` first.
//! `octets` are those of the pages that came, not what a peer announced.

use crate::job_lines::{JobOutcome, tell_job};
use crate::moments::milliseconds;
use control_file::Control;
use job_files::JobEnd;
use log::Log;
use lpd_values::{Octets, Refusal};
use server_counts::ServerCounts;
use std::alloc::{AllocError, Global};
use std::collections::HashMap;
use std::rt::Clock;
use std::sync::{Mutex, Wait};
use std::time::Duration;

/// A held job, as it is told of.
#[derive(Drop)]
pub(crate) struct Noted {
    pub(crate) queue: Octets,
    /// The number that its sender gave it, once a file of it has come.
    pub(crate) number: Option<u16>,
    /// Whose it is, once its control file has come.
    pub(crate) user: Option<Octets>,
    pub(crate) host: Option<Octets>,
    /// The number of its file in the folder that keeps jobs, where it has one.
    pub(crate) file: Option<u64>,
    pub(crate) pages: u64,
    pub(crate) octets: u64,
    /// When it was accepted.
    since: Duration,
    /// When it had come whole, once it has.
    received: Option<Duration>,
}

/// What is noted of a server's jobs.
#[derive(Drop)]
pub struct JobBook {
    alloc: Global,
    /// Whether the log has a line for what becomes of each job.
    has_lines: bool,
    jobs: Mutex<HashMap<u64, Noted>>,
    counts: Mutex<ServerCounts>,
}

/// The time since some start; none where the clock can't be read.
fn since_start<R: Clock>(rt: &R) -> Duration {
    rt.monotonic().unwrap_or(Duration::ZERO)
}

impl JobBook {
    /// With no job, and room for N, where the log has lines of them or their counts are shown. AllocError where memory for them is
    /// refused.
    pub fn open(
        alloc: Global,
        has_lines: bool,
        is_shown: bool,
        most_jobs: u32,
    ) -> Result<Option<JobBook>, AllocError> {
        if !has_lines && !is_shown {
            return Ok(None);
        }
        let jobs = HashMap::with_capacity(alloc, most_jobs as usize)?;
        Ok(Some(JobBook {
            alloc,
            has_lines,
            jobs: Mutex::new(jobs),
            counts: Mutex::new(ServerCounts::new()),
        }))
    }

    /// What was counted since the server's start.
    pub fn counts<R: Wait>(&self, rt: &R) -> ServerCounts {
        *self.counts.lock(rt)
    }

    /// One more connection is served.
    pub fn note_connection<R: Wait>(&self, rt: &R) {
        self.counts.lock(rt).connect();
    }

    /// A session has ended by this refusal.
    pub fn note_refusal<R: Wait>(&self, rt: &R, refusal: Refusal) {
        self.counts.lock(rt).refuse(refusal);
    }

    /// For how many seconds each job of these numbers has been held, where that is known. AllocError where memory for them is refused.
    pub fn ages<R: Clock + Wait>(
        &self,
        rt: &R,
        held: &[u64],
    ) -> Result<Vec<Option<u64>>, AllocError> {
        let now = since_start(rt);
        let jobs = self.jobs.lock(rt);
        let mut ages = Vec::new(self.alloc);
        for job in held {
            let noted = jobs.get(job);
            ages.push(noted.map(|noted| now.saturating_sub(noted.since).as_secs()))?;
        }
        Ok(ages)
    }

    /// A job was accepted for the queue of this name. Where memory for that is refused, nothing is noted of it.
    pub fn begin<R: Clock + Wait>(&self, rt: &R, job: u64, queue: &[u8]) {
        let Ok(queue) = Octets::copy_of(self.alloc, queue) else {
            return;
        };
        let noted = Noted {
            queue,
            number: None,
            user: None,
            host: None,
            file: None,
            pages: 0,
            octets: 0,
            since: since_start(rt),
            received: None,
        };
        let _ = self.jobs.lock(rt).insert(job, noted);
    }

    /// A job has this number of its sender's.
    pub fn note_number<R: Wait>(&self, rt: &R, job: u64, number: u16) {
        if let Some(noted) = self.jobs.lock(rt).get_mut(&job) {
            noted.number = Some(number);
        }
    }

    /// The number that a held job's sender gave it, where it is known.
    pub fn number_of<R: Wait>(&self, rt: &R, job: u64) -> Option<u16> {
        self.jobs.lock(rt).get(&job).and_then(|noted| noted.number)
    }

    /// One more page of a job has come, with N octets.
    pub fn note_page<R: Wait>(&self, rt: &R, job: u64, octets: usize) {
        if let Some(noted) = self.jobs.lock(rt).get_mut(&job) {
            noted.pages = noted.pages.saturating_add(1);
            noted.octets = noted.octets.saturating_add(octets as u64);
        }
    }

    /// A job has this control file. What there is no memory for isn't noted.
    pub fn note_control<R: Wait>(&self, rt: &R, job: u64, control: &Control) {
        if let Some(noted) = self.jobs.lock(rt).get_mut(&job) {
            noted.number = Some(control.number);
            noted.user = Octets::copy_of(self.alloc, control.user.as_slice()).ok();
            noted.host = Octets::copy_of(self.alloc, control.host.as_slice()).ok();
        }
    }

    /// Tells what has become of a job by now, where the log has a line for that.
    fn tell<R: Log>(&self, rt: &R, job: u64, noted: &Noted, outcome: JobOutcome, now: Duration) {
        if self.has_lines {
            tell_job(rt, job, noted, outcome, now.saturating_sub(noted.since));
        }
    }

    /// A job has come whole: counts it, and tells of it.
    fn note_whole<R: Log + Wait>(&self, rt: &R, job: u64, noted: &Noted, now: Duration) {
        let took = milliseconds(now.saturating_sub(noted.since));
        self.counts.lock(rt).receive(noted.octets, took);
        self.tell(rt, job, noted, JobOutcome::Received, now);
    }

    /// A job that has come whole has this file in the folder that keeps jobs.
    pub fn note_file<R: Wait>(&self, rt: &R, job: u64, file: u64) {
        if let Some(noted) = self.jobs.lock(rt).get_mut(&job) {
            noted.file = Some(file);
        }
    }

    /// A job has come whole.
    pub fn receive<R: Clock + Log + Wait>(&self, rt: &R, job: u64) {
        let now = since_start(rt);
        let mut jobs = self.jobs.lock(rt);
        if let Some(noted) = jobs.get_mut(&job) {
            noted.received = Some(now);
            self.note_whole(rt, job, noted, now);
        }
    }

    /// Counts a job by what has become of it.
    fn count<R: Wait>(&self, rt: &R, noted: &Noted, outcome: JobOutcome, now: Duration) {
        let mut counts = self.counts.lock(rt);
        match outcome {
            JobOutcome::Received | JobOutcome::PutBack => {}
            JobOutcome::Ended(JobEnd::Done) => {
                let since = noted.received.unwrap_or(now);
                counts.finish(noted.octets, milliseconds(now.saturating_sub(since)));
            }
            JobOutcome::Ended(JobEnd::Failed) => counts.fail(),
            JobOutcome::Ended(JobEnd::Removed) => counts.remove(),
            JobOutcome::Aborted => counts.abort(),
        }
    }

    /// A job isn't held any more: each is told once.
    pub fn end<R: Clock + Log + Wait>(&self, rt: &R, job: u64, outcome: JobOutcome) {
        let now = since_start(rt);
        let Some(noted) = self.jobs.lock(rt).remove(&job) else {
            return;
        };
        // A printer may be through with it before its session has told that it came whole.
        if noted.received.is_none() && !matches!(outcome, JobOutcome::Aborted) {
            self.note_whole(rt, job, &noted, now);
        }
        self.count(rt, &noted, outcome, now);
        self.tell(rt, job, &noted, outcome, now);
    }

    /// A session has let go of a job: it is given up, where it wasn't whole.
    pub fn let_go<R: Clock + Log + Wait>(&self, rt: &R, job: u64) {
        let is_received = self
            .jobs
            .lock(rt)
            .get(&job)
            .is_some_and(|noted| noted.received.is_some());
        if !is_received {
            self.end(rt, job, JobOutcome::Aborted);
        }
    }
}
