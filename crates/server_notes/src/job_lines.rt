//! The lines of the log that tell what becomes of each job, where they are asked for.

use crate::job_book::Noted;
use control_lines::Escaped;
use job_files::JobEnd;
use log::{Log, info};
use std::fmt;
use std::time::Duration;

/// The part of the program that gives these lines, as the log names it.
pub const JOB_LINES: &str = "lpd_daemon::job_lines";

/// What becomes of a job.
///
/// ```text
///             came whole             its printer left it, or it was removed
///   accepted ------------> Received ---------------------------------------> Ended
///       |                     |
///       |                     +----- it waits in the folder again -----> PutBack
///       |
///       +----- its session gave it up -----> Aborted
/// ```
#[derive(Clone, Copy)]
pub enum JobOutcome {
    /// It came whole.
    Received,
    /// It has ended so.
    Ended(JobEnd),
    /// It waits in the folder that keeps jobs again, and will be accepted under another number.
    PutBack,
    /// It was given up before it was whole.
    Aborted,
}

impl fmt::Display for JobOutcome {
    fn fmt<W: fmt::Write>(&self, f: &mut fmt::Formatter<W>) -> fmt::Result {
        f.write_str(match self {
            JobOutcome::Received => "received",
            JobOutcome::Ended(JobEnd::Done) => "done",
            JobOutcome::Ended(JobEnd::Failed) => "failed",
            JobOutcome::Ended(JobEnd::Removed) => "removed",
            JobOutcome::PutBack => "put back",
            JobOutcome::Aborted => "aborted",
        })
    }
}

/// A word of strangers, or `-` where there is none.
#[derive(Clone, Copy)]
struct ShownWord<'a>(Option<&'a [u8]>);

impl fmt::Display for ShownWord<'_> {
    fn fmt<W: fmt::Write>(&self, f: &mut fmt::Formatter<W>) -> fmt::Result {
        match self.0 {
            Some(octets) => write!(f, "{}", Escaped(octets)),
            None => f.write_str("-"),
        }
    }
}

/// The number that a job's sender gave it in three digits, or `-` where there is none.
#[derive(Clone, Copy)]
struct Number(Option<u16>);

impl fmt::Display for Number {
    fn fmt<W: fmt::Write>(&self, f: &mut fmt::Formatter<W>) -> fmt::Result {
        match self.0 {
            Some(number) => write!(f, "{number:03}"),
            None => f.write_str("-"),
        }
    }
}

/// A line of a job: `17 lp 001 ann@host 2 pages 11 octets received in 0.01 s`, and `file 7` behind it where it has a file in the folder.
#[derive(Clone, Copy)]
struct JobLine<'a> {
    job: u64,
    noted: &'a Noted,
    outcome: JobOutcome,
    took: Duration,
}

impl fmt::Display for JobLine<'_> {
    fn fmt<W: fmt::Write>(&self, f: &mut fmt::Formatter<W>) -> fmt::Result {
        let JobLine {
            job,
            noted,
            outcome,
            took,
        } = self;
        let queue = ShownWord(Some(noted.queue.as_slice()));
        let user = ShownWord(noted.user.as_ref().map(|user| user.as_slice()));
        let host = ShownWord(noted.host.as_ref().map(|host| host.as_slice()));
        let number = Number(noted.number);
        let (pages, octets) = (noted.pages, noted.octets);
        let (seconds, hundredths) = (took.as_secs(), took.subsec_millis() / 10);
        write!(
            f,
            "{job} {queue} {number} {user}@{host} {pages} pages {octets} octets "
        )?;
        write!(f, "{outcome} in {seconds}.{hundredths:02} s")?;
        match noted.file {
            Some(file) => write!(f, " file {file}"),
            None => Ok(()),
        }
    }
}

/// Tells what has become of a job this long after it was accepted.
pub(crate) fn tell_job<R: Log>(
    rt: &R,
    job: u64,
    noted: &Noted,
    outcome: JobOutcome,
    took: Duration,
) {
    let line = JobLine {
        job,
        noted,
        outcome,
        took,
    };
    info!(rt; target: JOB_LINES, "job {line}");
}
