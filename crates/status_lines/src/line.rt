//! The lines of the answer.

ghost use Rattle.std.specs.Prelude.{◌≡◌, Some};
ghost use Rattle.std.specs.Int.{to_be_bytes, w32};
ghost use Rattle.std.specs.Net.Addr.{ipv4_octets};
ghost use Rattle.status_lines.specs.Words.{called_words, claim_words, line_words, outlook_words, owner_words, phase_word, printer_words, progress_words, queue_word, spool_word, trouble_word};

use control_lines::Escaped;
use spool_snapshot::{Pages, SeenJob};
use standings::{JobNumbers, JobStage, JobStanding, PrinterStanding, stage_of};
use std::fmt;
use std::net::{Ipv4Addr, SocketAddr};

/// Whether a spool takes jobs.
#[derive(Clone, Copy, Debug, PartialEq, Eq)]
pub enum SpoolState {
    /// It takes jobs.
    Runs,
    /// The server was asked to stop.
    Stops,
    /// It is closed.
    Closed,
}

impl SpoolState {
    fn word(self) -> &'static str
        ensures { result.now ≡ spool_word self }
    {
        match self {
            SpoolState::Runs => "runs",
            SpoolState::Stops => "stops",
            SpoolState::Closed => "closed",
        }
    }
}

/// Whether a queue is held.
#[derive(Clone, Copy, Debug, PartialEq, Eq)]
pub enum QueueState {
    /// Its jobs are printed.
    Runs,
    /// It is held.
    Held,
}

impl QueueState {
    fn word(self) -> &'static str
        ensures { result.now ≡ queue_word self }
    {
        match self {
            QueueState::Runs => "runs",
            QueueState::Held => "held",
        }
    }
}

/// What a printer does, as its line says it: whose queue is held is idle, and so is one that is put off; one that isn't reached has its page.
#[derive(Clone, Copy)]
struct PrinterWork(PrinterStanding);

impl fmt::Display for PrinterWork {
    ghost output = { λ work. Some (printer_words work.0) };

    fn fmt<W: fmt::Write>(&self, f: &mut fmt::Formatter<W>) -> fmt::Result {
        match self.0 {
            PrinterStanding::Idle | PrinterStanding::Held | PrinterStanding::PutOff { .. } => {
                f.write_str("idle")
            }
            PrinterStanding::Printing { job, place }
            | PrinterStanding::Unreached { job, place, .. } => {
                write!(f, "prints {job} place {place}")
            }
            PrinterStanding::Stopped { .. } => f.write_str("stopped"),
        }
    }
}

/// The word for how far a job is.
fn phase_word(stage: JobStage) -> &'static str
    ensures { result.now ≡ phase_word stage }
{
    match stage {
        JobStage::Arriving => "receiving",
        JobStage::Waiting | JobStage::Printing => "received",
        JobStage::Ended => "ended",
    }
}

/// What is the matter with a printer.
#[derive(Clone, Copy)]
pub enum PrinterTrouble {
    /// It is stopped.
    Stopped,
    /// It isn't reached, or takes nothing.
    Unreached,
    /// It isn't reached, and its jobs wait in the folder.
    PutOff,
}

impl PrinterTrouble {
    fn word(self) -> &'static str
        ensures { result.now ≡ trouble_word self }
    {
        match self {
            PrinterTrouble::Stopped => "stopped",
            PrinterTrouble::Unreached => "unreached",
            PrinterTrouble::PutOff => "putoff",
        }
    }
}

/// What a job holds and may still need, in pages.
#[derive(Clone, Copy)]
pub struct JobPages {
    /// The pages that it holds.
    pub holds: u32,
    /// The pages that it may still ask for.
    pub needs: u32,
}

impl fmt::Display for JobPages {
    ghost output = { λ pages. Some (claim_words pages) };

    fn fmt<W: fmt::Write>(&self, f: &mut fmt::Formatter<W>) -> fmt::Result {
        write!(f, "holds {} needs {}", self.holds, self.needs)
    }
}

/// A line of the answer to `status`.
#[derive(Clone, Copy)]
pub enum StatusLine<'a> {
    /// For how many seconds the server runs.
    Uptime {
        seconds: u64,
    },
    /// Whether the spool takes jobs.
    Spool {
        state: SpoolState,
    },
    /// Where the pages of the pool are.
    Pages {
        pages: Pages,
    },
    /// How many entries of the account are counted, how many there may be, and the number of the account's segment.
    Entries {
        counted: u64,
        most: u64,
        segment: u64,
    },
    /// How many connections wait in the lobby.
    Lobby {
        waiting: usize,
    },
    /// How many jobs wait in the folder that keeps them, and how many in it have failed.
    Kept {
        waiting: u64,
        failed: u64,
    },
    /// How many jobs of a queue of this name wait in the folder.
    Parked {
        queue: &'a str,
        jobs: u64,
    },
    /// A session: the address of its peer, and for how many seconds nothing came from that.
    Session {
        peer: SocketAddr,
        silent: u64,
    },
    /// A queue.
    Queue {
        name: &'a str,
        state: QueueState,
    },
    /// A printer of a queue of this name, by its number from 1.
    Printer {
        number: usize,
        queue: &'a str,
        standing: PrinterStanding,
    },
    /// What is the matter with a printer of a queue of this name, by its number from 1: for how many seconds, and why, which is one line.
    Trouble {
        number: usize,
        queue: &'a str,
        trouble: PrinterTrouble,
        seconds: u64,
        cause: &'a str,
    },
    /// A held job of a queue of this name.
    Job {
        job: &'a SeenJob,
        queue: &'a str,
        pages: JobPages,
        numbers: JobNumbers,
        standing: JobStanding,
    },
}

/// The address of a sender, by its number.
#[tactic(auto, unfolding(std::specs::Net::Addr::IsIpv4OfBits))]
fn address_of(sender: u32) -> Ipv4Addr
    ensures { ipv4_octets result ≡ to_be_bytes w32 sender }
{
    Ipv4Addr::from_bits(sender)
}

/// Who sent a job: its sender's address, and the user and the host that its control file names.
#[derive(Clone, Copy)]
struct JobSender<'a>(&'a SeenJob);

impl fmt::Display for JobSender<'_> {
    ghost output = { λ owner. Some (owner_words owner.0.now) };

    fn fmt<W: fmt::Write>(&self, f: &mut fmt::Formatter<W>) -> fmt::Result {
        let job = self.0;
        let sender = address_of(job.sender);
        let (user, host) = (Escaped(job.user.as_slice()), Escaped(job.host.as_slice()));
        write!(f, "{sender} {user} {host}")
    }
}

/// How far a job is.
#[derive(Clone, Copy)]
struct JobProgress<'a>(&'a SeenJob);

impl fmt::Display for JobProgress<'_> {
    ghost output = { λ progress. Some (progress_words progress.0.now) };

    fn fmt<W: fmt::Write>(&self, f: &mut fmt::Formatter<W>) -> fmt::Result {
        let job = self.0;
        let (phase, pages, octets) = (phase_word(stage_of(job)), job.granted, job.octets);
        write!(f, "{phase} pages {pages} octets {octets}")
    }
}

/// The number that a sender gave its job, in three digits, or `-` where it isn't known; and that of its file, where it has one.
#[derive(Clone, Copy)]
struct JobCalled(JobNumbers);

impl fmt::Display for JobCalled {
    ghost output = { λ called. Some (called_words called.0) };

    fn fmt<W: fmt::Write>(&self, f: &mut fmt::Formatter<W>) -> fmt::Result {
        match self.0.client {
            Some(number) => write!(f, "number {number:03}")?,
            None => f.write_str("number -")?,
        }
        match self.0.file {
            Some(file) => write!(f, " file {file}"),
            None => Ok(()),
        }
    }
}

/// What a job holds and may still need, what it is called, and how it stands.
#[derive(Clone, Copy)]
struct JobOutlook {
    pages: JobPages,
    numbers: JobNumbers,
    standing: JobStanding,
}

impl fmt::Display for JobOutlook {
    ghost output = { λ outlook. Some (outlook_words outlook.pages outlook.numbers outlook.standing) };

    fn fmt<W: fmt::Write>(&self, f: &mut fmt::Formatter<W>) -> fmt::Result {
        let JobOutlook {
            pages,
            numbers,
            standing,
        } = self;
        write!(f, "{pages} {} {standing}", JobCalled(*numbers))
    }
}

/// Writes the line without its LF.
impl fmt::Display for StatusLine<'_> {
    ghost output = { λ line. Some (line_words line) };

    fn fmt<W: fmt::Write>(&self, f: &mut fmt::Formatter<W>) -> fmt::Result {
        match self {
            StatusLine::Uptime { seconds } => write!(f, "uptime {seconds}"),
            StatusLine::Spool { state } => write!(f, "spool {}", state.word()),
            StatusLine::Pages { pages } => write!(
                f,
                "pages free {} chained {} lent {} out {}",
                pages.free, pages.chained, pages.lent, pages.out
            ),
            StatusLine::Entries {
                counted,
                most,
                segment,
            } => { write!(f, "entries {counted} of {most} segment {segment}") }
            StatusLine::Lobby { waiting } => write!(f, "lobby {waiting}"),
            StatusLine::Kept { waiting, failed } => {
                write!(f, "kept waiting {waiting} failed {failed}")
            }
            StatusLine::Parked { queue, jobs } => write!(f, "parked {queue} {jobs}"),
            StatusLine::Session { peer, silent } => { write!(f, "session {peer} silent {silent}") }
            StatusLine::Queue { name, state } => write!(f, "queue {name} {}", state.word()),
            StatusLine::Printer {
                number,
                queue,
                standing,
            } => { write!(f, "printer {number} {queue} {}", PrinterWork(*standing)) }
            StatusLine::Trouble {
                number,
                queue,
                trouble,
                seconds,
                cause,
            } => {
                let word = trouble.word();
                write!(f, "printer {number} {queue} {word} {seconds} {cause}")
            }
            StatusLine::Job {
                job,
                queue,
                pages,
                numbers,
                standing,
            } => {
                let (number, owner, progress) = (job.number, JobSender(job), JobProgress(job));
                let outlook = JobOutlook {
                    pages: *pages,
                    numbers: *numbers,
                    standing: *standing,
                };
                write!(f, "job {number} {queue} {owner} {progress} {outlook}")
            }
        }
    }
}
