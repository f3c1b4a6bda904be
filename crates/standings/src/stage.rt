//! How far jobs are, as they are counted.

ghost use Rattle.std.specs.Prelude.{◌≡◌, count_by};
ghost use Rattle.standings.specs.Stages.{goes_on, is_at, is_awaited, is_of_queue_at, stage_of};

use crate::printer::is_served;
use held_jobs::Phase;
use spool_calls::Printer;
use spool_snapshot::SeenJob;

/// How far a held job is, as it is counted.
///
/// ```text
///   Arriving ---> Waiting ---> Printing ---> Ended
///       |            |                         ^
///       +------------+-- (it is gone)          |
///                       removed while a page is at a printer
/// ```
#[derive(Clone, Copy)]
pub enum JobStage {
    /// It is being received.
    Arriving,
    /// It is whole, and no page of it was handed to a printer.
    Waiting,
    /// It is being printed.
    Printing,
    /// It has ended, and a page of it is still at a printer.
    Ended,
}

/// How far a job is.
pub fn stage_of(job: &SeenJob) -> JobStage
    ensures { result ≡ stage_of job.now }
{
    match job.phase {
        Phase::Receiving => JobStage::Arriving,
        Phase::Received if job.handed == 0 => JobStage::Waiting,
        Phase::Received => JobStage::Printing,
        Phase::Ended => JobStage::Ended,
    }
}

/// Whether a job is so far.
fn is_at(stage: JobStage, job: &SeenJob) -> bool
    ensures { result ≡ is_at stage job.now }
{
    matches!(
        (stage, stage_of(job)),
        (JobStage::Arriving, JobStage::Arriving)
            | (JobStage::Waiting, JobStage::Waiting)
            | (JobStage::Printing, JobStage::Printing)
            | (JobStage::Ended, JobStage::Ended)
    )
}

/// How many of these jobs are so far.
pub fn jobs_at(jobs: &[SeenJob], stage: JobStage) -> u64
    ensures { result ≡ count_by (is_at stage) jobs.now }
{
    jobs.iter().filter(|job| is_at(stage, job)).count() as u64
}

/// How many of these jobs are of the queue of this number, and so far.
pub fn jobs_of_queue_at(jobs: &[SeenJob], queue: usize, stage: JobStage) -> u64
    ensures { result ≡ count_by (is_of_queue_at queue stage) jobs.now }
{
    jobs.iter()
        .filter(|job| job.queue as usize == queue && is_at(stage, job))
        .count() as u64
}

/// Whether a job that is so far goes on by itself, where its queue is held or isn't, and a printer of it runs.
pub fn goes_on(stage: JobStage, is_held: bool) -> bool
    ensures { result ≡ goes_on stage is_held }
{
    match stage {
        JobStage::Arriving => false,
        JobStage::Waiting => !is_held,
        JobStage::Printing | JobStage::Ended => true,
    }
}

/// Whether a server that stops waits for a job whose queue is held or isn't: where nobody need do anything for it to come to its end.
pub fn is_awaited(printers: &[Printer], is_held: bool, job: &SeenJob) -> bool
    ensures { result ≡ is_awaited printers.now is_held job.now }
{
    goes_on(stage_of(job), is_held) && is_served(printers, job.queue)
}
