//! Entries of the account. Lists of entries have the newest first.

ghost use Rattle.std.specs.Prelude.{◌≡◌};
ghost use Rattle.spool_history.specs.Said as D;

use control_file::Control;
use lpd_values::FileName;

/// What an account says of a page: its length in octets and its SHA-256 (FIPS 180-4).
#[derive(Clone, Copy, PartialEq, Eq)]
pub struct Outline {
    /// The octets that the page has.
    pub length: u32,
    /// Their digest.
    pub digest: [u8; 32],
}

/// What the session of an accepted job does.
#[derive(Drop)]
pub enum Act {
    /// An empty page was lent to it.
    Granted,
    /// A data file began.
    Began {
        /// Its name.
        name: FileName,
        /// The octets that it is to have.
        count: u64,
    },
    /// A page was put into a file.
    Put {
        /// The number of the file in the job, from 0.
        file: u64,
        /// The number of the page in that file, from 0.
        number: u64,
        /// What is on it.
        page: Outline,
    },
    /// A data file ended.
    FileEnded {
        /// Its number in the job, from 0.
        file: u64,
        /// Whether the job is whole by that.
        is_whole: bool,
    },
    /// The control file came.
    Controlled {
        /// What it says.
        control: Control,
        /// Whether the job is whole by that.
        is_whole: bool,
    },
    /// The job was aborted.
    Aborted,
}

/// A page at a printer.
#[derive(Clone, Copy, PartialEq, Eq)]
pub struct Sheet {
    /// The number of its job.
    pub job: u64,
    /// Its place in print order, from 0.
    pub place: u64,
    /// The number of its file in the job, from 0.
    pub file: u64,
    /// Its number in that file, from 0.
    pub number: u64,
    /// What is on it.
    pub page: Outline,
}

/// What is said of a job when a page of it was printed.
#[derive(Clone, Copy, PartialEq, Eq)]
pub enum Progress {
    /// More of it is to be printed.
    Going,
    /// That was its last place.
    Done,
    /// It had ended before.
    Ended,
}

/// What becomes of a page at a printer.
#[derive(Clone, Copy, PartialEq, Eq)]
pub enum Turn {
    /// It was handed to the printer.
    Handed,
    /// It was printed.
    Printed(Progress),
    /// It failed, and the printer stopped.
    Failed,
}

impl Turn {
    ghost use Rattle.account.specs.Seen.{turn_seen};

    /// Whether a page was handed out.
    pub fn is_handed(self) -> bool
        ensures { result ≡ D.is_handed (turn_seen self) }
    {
        matches!(self, Turn::Handed)
    }

    /// Whether a page failed.
    pub fn is_failed(self) -> bool
        ensures { result ≡ D.is_failed (turn_seen self) }
    {
        matches!(self, Turn::Failed)
    }
}

/// What happened to a spool.
#[derive(Drop)]
pub enum Entry {
    /// A job was accepted.
    Opened {
        /// The number that it was given.
        job: u64,
        /// The number of its sender.
        sender: u32,
        /// The number of its queue.
        queue: u32,
    },
    /// The session of the job of this number did this.
    OfJob(u64, Act),
    /// At the printer of this number this became of a page.
    AtPrinter(u32, Sheet, Turn),
    /// Jobs of the queue of this number were removed.
    Removed(u32, Vec<u64>),
    /// The stopped printers of the queue of this number were started.
    Started(u32),
    /// The spool was closed.
    Closed,
}
