//! How a job stands.

ghost use Rattle.std.specs.Prelude.{◌≡◌, position};
ghost use Rattle.standings.specs.Printers.{runs_for};
ghost use Rattle.standings.specs.Jobs.{arriving_standing, came_standing, file_standing, first_before, goes_before, has_page_of, is_put_off, job_standing, received_standing, unlent_standing, waiting_standing};

use crate::noted::{EdgeNotes, PrinterNotes, is_held};
use crate::printer::{reached_printers, runs_for};
use crate::stage::{JobStage, stage_of};
use crate::turns::{kept_for, pages_of};
use claims::Table;
use job_files::FileStage;
use spool_calls::Printer;
use spool_snapshot::{SeenJob, Snapshot};

/// How a job stands: what it does, or what it waits for.
///
/// ```text
///   KeptInFolder --fed--> Begun ---> Arriving <---> PageWanted, PagesKept, NoPageFree
///        ^                              |
///        | resent                       | it is whole
///   FailedInFolder                      v
///        ^             Behind ---> PrinterWanted <---> QueueHeld, PrintersStopped, PrinterUnreached
///        |                              |                                              ^
///        | a page fails                 | a page is handed to a printer                | nothing of it goes
///        |                              v                                              v
///        +--------- NextPageDue <---> Printing <---------------------------------------+
///                                       |
///                                       | it is removed, and a page of it is at a printer
///                                       v
///                                     Ending
/// ```
#[derive(Clone, Copy)]
pub enum JobStanding {
    /// It was accepted, and nothing of a file of it came.
    Begun,
    /// Its octets come: so many pages of those that its files have, as far as these are told.
    Arriving { came: u64, told: u64 },
    /// It waits for a page, and none is free.
    NoPageFree,
    /// It waits for a page, and those that are free are kept for the job of this number.
    PagesKept { job: u64 },
    /// It waits for a page.
    PageWanted,
    /// It is whole, and waits for the job of this number, an earlier one of its sender and queue.
    Behind { job: u64 },
    /// It is whole, and waits for a printer.
    PrinterWanted,
    /// It is whole, and its queue is held.
    QueueHeld,
    /// It is whole, and all printers of its queue are stopped.
    PrintersStopped,
    /// It waits for the printer of this number, which isn't reached: a page of it is there, or no other one of its queue runs.
    PrinterUnreached { printer: u64 },
    /// A page of it is at this printer: of those that were handed out the last one, from 1.
    Printing { printer: u64, page: u64 },
    /// It is being printed, and its next page is due.
    NextPageDue,
    /// It has ended, and a page of it is still at a printer.
    Ending,
    /// It is in the folder that keeps jobs, and waits for the spool to take it.
    KeptInFolder,
    /// It has failed, and is in the folder that keeps jobs.
    FailedInFolder,
}

impl JobStanding {
    /// How a job stands that is in the folder alone, in a file of this stage. None where it isn't there whole.
    pub fn of_file(stage: FileStage) -> Option<JobStanding>
        ensures { result ≡ file_standing stage }
    {
        match stage {
            FileStage::Temporary => None,
            FileStage::Whole => Some(JobStanding::KeptInFolder),
            FileStage::Failed => Some(JobStanding::FailedInFolder),
        }
    }
}

/// Whether another job is an earlier one of a job's sender and queue.
fn goes_before(job: &SeenJob, other: &SeenJob) -> bool
    ensures { result ≡ goes_before job.now other.now }
{
    other.number < job.number && other.sender == job.sender && other.queue == job.queue
}

/// The number of the first of these jobs that goes before this one.
fn first_before(jobs: &[SeenJob], job: &SeenJob) -> Option<u64>
    ensures { result ≡ first_before jobs.now job.now }
{
    let (first, rest) = jobs.split_first()?;
    if goes_before(job, first) {
        return Some(first.number);
    }
    first_before(rest, job)
}

/// Whether a page of the job of this number is at a printer.
fn has_page_of(job: u64, printer: &Printer) -> bool
    ensures { result ≡ has_page_of job printer.now }
{
    printer.out.is_some_and(|sheet| sheet.job == job)
}

/// The place of the printer at which a page of this job is.
fn place_with(printers: &[Printer], job: u64) -> Option<usize>
    ensures { result ≡ position (has_page_of job) printers.now }
{
    printers
        .iter()
        .position(|printer| has_page_of(job, printer))
}

/// The place of the first printer that runs for this queue.
fn place_for(printers: &[Printer], queue: u32) -> Option<usize>
    ensures { result ≡ position (runs_for queue) printers.now }
{
    printers.iter().position(|printer| runs_for(queue, printer))
}

/// How many pages of how many are there of a job that is being received.
fn came(page_size: u32, job: &SeenJob) -> JobStanding
    ensures { result ≡ came_standing page_size job.now }
{
    if job.octets == 0 {
        return JobStanding::Begun;
    }
    let came = u64::from(job.granted);
    let told = job.octets.div_ceil(u64::from(page_size.max(1)));
    JobStanding::Arriving {
        came,
        told: told.max(came),
    }
}

/// What a job waits for whose session waits for a page.
fn waits_for_page(claims: &Table, noted: &EdgeNotes<'_>, job: u64) -> JobStanding
    ensures { result ≡ unlent_standing claims.now noted.now job }
{
    if pages_of(claims.free()) == 0 {
        return JobStanding::NoPageFree;
    }
    match noted.turns.and_then(|turns| kept_for(turns, job)) {
        Some(job) => JobStanding::PagesKept { job },
        None => JobStanding::PageWanted,
    }
}

/// Whether the session of the job of this number waits for a page.
fn is_put_off(put_off: &[u64], job: u64) -> bool
    ensures { result ≡ is_put_off put_off.now job }
{
    put_off.iter().any(|number| *number == job)
}

/// How a job stands that is being received, where a page has so many octets.
fn arrives(page_size: u32, claims: &Table, noted: &EdgeNotes<'_>, job: &SeenJob) -> JobStanding
    ensures { result ≡ arriving_standing page_size claims.now noted.now job.now }
{
    if is_put_off(noted.put_off, job.number) {
        return waits_for_page(claims, noted, job.number);
    }
    came(page_size, job)
}

/// What a job waits for that was received, and of which no page was handed to a printer.
fn waits(spool: &Snapshot, noted: &EdgeNotes<'_>, job: &SeenJob) -> JobStanding
    ensures { result ≡ waiting_standing spool.now noted.now job.now }
{
    if let Some(job) = first_before(spool.jobs.as_slice(), job) {
        return JobStanding::Behind { job };
    }
    if is_held(noted.held, job.queue) {
        return JobStanding::QueueHeld;
    }
    let printers = spool.printers.as_slice();
    match place_for(printers, job.queue) {
        None => JobStanding::PrintersStopped,
        Some(at) if reached_printers(noted.printers, job.queue, printers) == 0 => {
            JobStanding::PrinterUnreached {
                printer: at as u64 + 1,
            }
        }
        Some(_) => JobStanding::PrinterWanted,
    }
}

/// How a job stands that was received.
fn prints(spool: &Snapshot, noted: &EdgeNotes<'_>, job: &SeenJob) -> JobStanding
    ensures { result ≡ received_standing spool.now noted.now job.now }
{
    let Some(at) = place_with(spool.printers.as_slice(), job.number) else {
        return if job.handed == 0 {
            waits(spool, noted, job)
        } else {
            JobStanding::NextPageDue
        };
    };
    let printer = at as u64 + 1;
    let notes = noted.printers.get(at);
    if notes.is_some_and(|notes| notes.unreached.is_some()) {
        return JobStanding::PrinterUnreached { printer };
    }
    JobStanding::Printing {
        printer,
        page: job.handed,
    }
}

/// How a held job stands in a spool whose pages have so many octets.
pub fn job_standing(
    spool: &Snapshot,
    noted: &EdgeNotes<'_>,
    page_size: u32,
    job: &SeenJob,
) -> JobStanding
    ensures { result ≡ job_standing spool.now noted.now page_size job.now }
{
    match stage_of(job) {
        JobStage::Arriving => arrives(page_size, &spool.claims, noted, job),
        JobStage::Waiting | JobStage::Printing => prints(spool, noted, job),
        JobStage::Ended => JobStanding::Ending,
    }
}
