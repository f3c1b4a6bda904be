//! What the page says of a printer, a job, the spool and the pool, before it is put there.

ghost use Rattle.std.specs.Prelude.{◌≡◌};
ghost use Rattle.status_page.specs.Said.{column_words, doubt_words, job_kind, job_word, parked_words, place_count, place_words, printer_kind, printer_remark, printer_word, sender_octets, since_words, spool_word, there_words};

use crate::figures::{Grouped, Size, Span};
use html_page::Tag;
use spool_snapshot::{Pages, SeenJob};
use standings::{JobName, JobStage, JobStanding, PrinterStanding};
use status_lines::SpoolState;
use std::fmt;

/// The word for how a printer stands.
#[derive(Clone, Copy)]
pub(crate) struct PrinterWord(pub(crate) PrinterStanding);

impl fmt::Display for PrinterWord {
    ghost use Rattle.std.specs.Prelude.{Some};

    ghost output = { λ word. Some (printer_word word.0) };

    fn fmt<W: fmt::Write>(&self, f: &mut fmt::Formatter<W>) -> fmt::Result {
        match self.0 {
            PrinterStanding::Idle => f.write_str("idle"),
            PrinterStanding::Held => f.write_str("idle, its queue is held"),
            PrinterStanding::Printing { job, .. } => write!(f, "job {job}"),
            PrinterStanding::Unreached { .. } | PrinterStanding::PutOff { .. } => {
                f.write_str("not reached")
            }
            PrinterStanding::Stopped { .. } => f.write_str("stopped"),
        }
    }
}

/// Since when something is the matter, and what.
#[derive(Clone, Copy)]
struct SinceCause<'a> {
    seconds: u64,
    cause: &'a str,
}

impl fmt::Display for SinceCause<'_> {
    ghost use Rattle.std.specs.Prelude.{Some};

    ghost output = { λ since. Some (since_words since.seconds since.cause.now) };

    fn fmt<W: fmt::Write>(&self, f: &mut fmt::Formatter<W>) -> fmt::Result {
        let (span, cause) = (Span(self.seconds), self.cause);
        write!(f, "{span}: {cause}")
    }
}

/// Which job waits at a printer.
#[derive(Clone, Copy)]
struct JobThere(u64);

impl fmt::Display for JobThere {
    ghost use Rattle.std.specs.Prelude.{Some};

    ghost output = { λ there. Some (there_words there.0) };

    fn fmt<W: fmt::Write>(&self, f: &mut fmt::Formatter<W>) -> fmt::Result {
        write!(f, "; job {} waits there", self.0)
    }
}

/// What is said of a printer behind that word: the page of its job, from 1, or since when something is the matter, and what.
#[derive(Clone, Copy)]
pub(crate) struct PrinterRemark<'a> {
    pub(crate) standing: PrinterStanding,
    pub(crate) cause: &'a str,
}

impl fmt::Display for PrinterRemark<'_> {
    ghost use Rattle.std.specs.Prelude.{Some};

    ghost output = { λ remark. Some (printer_remark remark.standing remark.cause.now) };

    fn fmt<W: fmt::Write>(&self, f: &mut fmt::Formatter<W>) -> fmt::Result {
        let cause = self.cause;
        match self.standing {
            PrinterStanding::Idle | PrinterStanding::Held => Ok(()),
            PrinterStanding::Printing { place, .. } => {
                write!(f, "page {}", Grouped(place.saturating_add(1)))
            }
            PrinterStanding::Unreached { job, seconds, .. } => {
                let since = SinceCause { seconds, cause };
                write!(f, "{since}{}", JobThere(job))
            }
            PrinterStanding::PutOff { seconds } => {
                write!(
                    f,
                    "{}; its jobs wait in the folder",
                    SinceCause { seconds, cause }
                )
            }
            PrinterStanding::Stopped {
                seconds: Some(seconds),
            } => { write!(f, "{}", SinceCause { seconds, cause }) }
            PrinterStanding::Stopped { seconds: None } => Ok(()),
        }
    }
}

/// Of which printed job it isn't known whether all of it came.
#[derive(Clone, Copy)]
pub(crate) struct DoubtWords(pub(crate) u64);

impl fmt::Display for DoubtWords {
    ghost use Rattle.std.specs.Prelude.{Some};

    ghost output = { λ doubt. Some (doubt_words doubt.0) };

    fn fmt<W: fmt::Write>(&self, f: &mut fmt::Formatter<W>) -> fmt::Result {
        write!(
            f,
            "job {} was printed, but its last octets may not have come",
            self.0
        )
    }
}

/// The class of a printer that stands so, for the style sheet.
pub(crate) fn printer_kind(standing: PrinterStanding) -> &'static str
    ensures { result.now ≡ printer_kind standing }
{
    match standing {
        PrinterStanding::Idle | PrinterStanding::Held => "idle",
        PrinterStanding::Printing { .. } => "busy",
        PrinterStanding::Unreached { .. }
        | PrinterStanding::PutOff { .. }
        | PrinterStanding::Stopped { .. } => "stopped",
    }
}

/// How many jobs of a queue wait in the folder.
#[derive(Clone, Copy)]
pub(crate) struct ParkedCount(pub(crate) u64);

impl fmt::Display for ParkedCount {
    ghost use Rattle.std.specs.Prelude.{Some};

    ghost output = { λ count. Some (parked_words count.0) };

    fn fmt<W: fmt::Write>(&self, f: &mut fmt::Formatter<W>) -> fmt::Result {
        match self.0 {
            1 => f.write_str("1 job waits in the folder"),
            jobs => write!(f, "{} jobs wait in the folder", Grouped(jobs)),
        }
    }
}

/// Who sent a job, as its control file says it.
#[derive(Clone, Copy)]
pub(crate) enum SenderPart {
    /// The user.
    User,
    /// The host, in small letters.
    Host,
}

impl SenderPart {
    /// What the control file of this job says.
    pub(crate) fn octets(self, job: &SeenJob) -> &[u8]
        ensures { result.now ≡ sender_octets self job.now }
    {
        match self {
            SenderPart::User => job.user.as_slice(),
            SenderPart::Host => job.host.as_slice(),
        }
    }

    /// The element that it stands in.
    pub(crate) fn tag(self) -> Tag {
        match self {
            SenderPart::User => Tag::Span,
            SenderPart::Host => Tag::Small,
        }
    }
}

/// The word for a job that is so far and stands so: one whose printer isn't reached waits, also where a page of it is there.
pub(crate) fn job_word(stage: JobStage, standing: JobStanding) -> &'static str
    ensures { result.now ≡ job_word stage standing }
{
    match (stage, standing) {
        (JobStage::Arriving, _) => "arriving",
        (JobStage::Waiting, _) | (_, JobStanding::PrinterUnreached { .. }) => "waiting",
        (JobStage::Printing, _) => "printing",
        (JobStage::Ended, _) => "ended",
    }
}

/// The class of a job that stands so: it goes on, it stays for others, or somebody is needed.
pub(crate) fn job_kind(standing: JobStanding) -> &'static str
    ensures { result.now ≡ job_kind standing }
{
    match standing {
        JobStanding::Printing { .. } | JobStanding::NextPageDue => "st go",
        JobStanding::NoPageFree
        | JobStanding::PagesKept { .. }
        | JobStanding::PageWanted
        | JobStanding::Behind { .. }
        | JobStanding::QueueHeld => "st stay",
        JobStanding::PrintersStopped
        | JobStanding::PrinterUnreached { .. }
        | JobStanding::Ending
        | JobStanding::FailedInFolder => "st ill",
        JobStanding::Begun
        | JobStanding::Arriving { .. }
        | JobStanding::PrinterWanted
        | JobStanding::KeptInFolder => "st",
    }
}

/// A column of the jobs' table that has a text.
#[derive(Clone, Copy)]
pub(crate) enum JobColumn {
    /// What the job is called.
    Name,
    /// How many pages it has.
    Pages,
    /// How many octets.
    Size,
    /// For how long it is held.
    HeldFor,
}

/// What stands in a column of a job's row.
#[derive(Clone, Copy)]
pub(crate) struct JobCell<'a> {
    pub(crate) column: JobColumn,
    pub(crate) job: &'a SeenJob,
    pub(crate) name: JobName,
    /// For how many seconds it is held, where that is known.
    pub(crate) age: Option<u64>,
}

impl fmt::Display for JobCell<'_> {
    ghost use Rattle.std.specs.Prelude.{Some};

    ghost output = { λ cell. Some (column_words cell.column cell.job.now cell.name cell.age) };

    fn fmt<W: fmt::Write>(&self, f: &mut fmt::Formatter<W>) -> fmt::Result {
        match (self.column, self.age) {
            (JobColumn::Name, _) => write!(f, "{}", self.name),
            (JobColumn::Pages, _) => write!(f, "{}", Grouped(u64::from(self.job.granted))),
            (JobColumn::Size, _) => write!(f, "{}", Size(self.job.octets)),
            (JobColumn::HeldFor, Some(seconds)) => write!(f, "{}", Span(seconds)),
            (JobColumn::HeldFor, None) => Ok(()),
        }
    }
}

/// What is said of a spool that doesn't take jobs any more.
pub(crate) fn spool_word(state: SpoolState) -> &'static str
    ensures { result.now ≡ spool_word state }
{
    match state {
        SpoolState::Runs => "",
        SpoolState::Stops => "stopping",
        SpoolState::Closed => "closed",
    }
}

/// Where pages of the pool are.
#[derive(Clone, Copy)]
pub(crate) enum PagePlace {
    /// At printers.
    Out,
    /// Lent to sessions.
    Lent,
    /// Full, of jobs.
    Chained,
    /// Free.
    Free,
}

impl PagePlace {
    /// How many of these pages are there.
    pub(crate) fn count(self, pages: Pages) -> usize
        ensures { result ≡ place_count self pages }
    {
        match self {
            PagePlace::Out => pages.out,
            PagePlace::Lent => pages.lent,
            PagePlace::Chained => pages.chained,
            PagePlace::Free => pages.free,
        }
    }

    /// Its class, for the style sheet.
    pub(crate) fn kind(self) -> &'static str {
        match self {
            PagePlace::Out => "out",
            PagePlace::Lent => "lent",
            PagePlace::Chained => "chained",
            PagePlace::Free => "free",
        }
    }

    /// Where it is, in words.
    pub(crate) fn words(self) -> &'static str
        ensures { result.now ≡ place_words self }
    {
        match self {
            PagePlace::Out => "at printers",
            PagePlace::Lent => "lent to sessions",
            PagePlace::Chained => "full, of jobs",
            PagePlace::Free => "free",
        }
    }
}
