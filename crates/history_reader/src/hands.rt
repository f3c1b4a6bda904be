//! Which page a printer gets next.

ghost use Rattle.std.specs.Prelude.{◌≡◌, ◌==◌, ◌&&◌, ◌∷◌, not, IfOk, MatchOption, None, Some, drop, find, map, slice_index_or};
ghost use Rattle.std.specs.List.{list_any};
ghost use Rattle.spool_history.specs.Next as X;
ghost use Rattle.spool_history.specs.Now as N;
ghost use Rattle.account.specs.declared.entry.Outline.{Outline};
ghost use Rattle.history_reader.specs.Seen.{job_seen, next_seen, page_seen, printer_seen, state_seen};

use crate::state::{Job, Next, Page, Printer, State};
use account::Sheet;
use config_values::Config;
use std::alloc::{AllocError, Global};

/// A printer of no queue.
const NO_PRINTER: Printer = Printer {
    queue: 0,
    out: None,
    began: None,
    stopped: false,
};

/// The printer at this place, or one of no queue where there is none.
fn printer_at(printers: &[Printer], place: usize) -> Printer
    ensures { printer_seen result
        ≡ slice_index_or (map printer_seen printers.now) place X.no_printer }
{
    let Some((first, rest)) = printers.split_first() else {
        return NO_PRINTER;
    };
    if place == 0 {
        return *first;
    }
    printer_at(rest, place - 1)
}

/// The printer of a number, or one of no queue where no printer has this number.
pub fn printer_numbered(state: &State, printer: u32) -> Printer
    ensures { printer_seen result
        ≡ slice_index_or (X.no_printer ∷ map printer_seen state.now.printers.items) printer
        X.no_printer }
{
    if printer == 0 {
        return NO_PRINTER;
    }
    printer_at(state.printers.as_slice(), printer as usize - 1)
}

/// Whether one of these jobs is of the same sender and queue and came earlier.
fn has_earlier(job: &Job, jobs: &[Job]) -> bool
    ensures { result ≡ list_any (X.is_preceded_by (job_seen job.now)) (map job_seen jobs.now) }
{
    let Some((first, rest)) = jobs.split_first() else {
        return false;
    };
    (first.sender == job.sender && first.queue == job.queue && first.number < job.number)
        || has_earlier(job, rest)
}

/// Whether it is received and has not ended, no page of it was handed out, and all earlier jobs of its sender and queue
/// are gone.
fn is_ready(job: &Job, jobs: &[Job]) -> bool
    ensures { result ≡ X.is_ready (map job_seen jobs.now) (job_seen job.now) }
{
    job.is_received() && !job.ended && job.handed == 0 && !has_earlier(job, jobs)
}

/// The first of these jobs that is of a queue and ready among all jobs.
fn first_ready<'a>(some: &'a [Job], jobs: &[Job], queue: u32) -> Option<&'a Job>
    ensures { MatchOption result (find (λ w. (w.queue == queue)
        && X.is_ready (map job_seen jobs.now) w) (map job_seen some.now)
        ≡ None) (λ v. find (λ w. (w.queue == queue)
        && X.is_ready (map job_seen jobs.now) w) (map job_seen some.now) ≡ Some (job_seen v.now)) }
{
    let Some((first, rest)) = some.split_first() else {
        return None;
    };
    if first.queue == queue && is_ready(first, jobs) {
        return Some(first);
    }
    first_ready(rest, jobs, queue)
}

/// The job of a number that has not ended.
fn first_unended(jobs: &[Job], number: u64) -> Option<&Job>
    ensures { MatchOption result (find (λ v. (v.number == number)
        && not v.ended) (map job_seen jobs.now) ≡ None) (λ w. find (λ v. (v.number == number)
        && not v.ended) (map job_seen jobs.now) ≡ Some (job_seen w.now)) }
{
    let Some((first, rest)) = jobs.split_first() else {
        return None;
    };
    if first.number == number && !first.ended {
        return Some(first);
    }
    first_unended(rest, number)
}

/// The job that a printer of a queue, which began this one last, goes on with or begins.
fn turn_of(jobs: &[Job], queue: u32, began: Option<u64>) -> Option<&Job>
    ensures { MatchOption result (X.turn_of (map job_seen jobs.now) queue began
        ≡ None) (λ v. X.turn_of (map job_seen jobs.now) queue began ≡ Some (job_seen v.now)) }
{
    if let Some(number) = began {
        if let Some(job) = first_unended(jobs, number) {
            return Some(job);
        }
    }
    first_ready(jobs, jobs, queue)
}

/// The page that stands after so many of these, as this place of a job.
fn hand_after(job: u64, place: u64, pages: &[Page], skipped: u64) -> Next
    ensures { next_seen result ≡ X.hand_first job place (drop skipped (map page_seen pages.now)) }
{
    let Some((first, rest)) = pages.split_first() else {
        return Next::Nothing;
    };
    if skipped == 0 {
        return Next::Hands(Sheet {
            job,
            place,
            file: first.file,
            number: first.number,
            page: first.page,
        });
    }
    hand_after(job, place, rest, skipped - 1)
}

/// The next place of a job.
fn hand_of(alloc: Global, job: &Job) -> Result<Next, AllocError>
    ensures { IfOk result (λ n. next_seen n ≡ X.hand_of (Some (job_seen job.now))) }
{
    let places = job.places(alloc)?;
    Ok(hand_after(job.number, job.handed, places.as_slice(), job.handed))
}

/// What a printer that asks for a page gets where a spool stands like this.
pub fn next_page(
    alloc: Global,
    config: &Config,
    state: &State,
    printer: u32,
) -> Result<Next, AllocError>
    ensures { IfOk result (λ n. next_seen n
        ≡ X.next_page (state_seen config.now state.now) printer) }
{
    if state.closed {
        return Ok(Next::Over);
    }
    let printer = printer_numbered(state, printer);
    if printer.stopped {
        return Ok(Next::Stops);
    }
    if printer.out.is_some() {
        return Ok(Next::Busy);
    }
    match turn_of(state.jobs.as_slice(), printer.queue, printer.began) {
        Some(job) => hand_of(alloc, job),
        None => Ok(Next::Nothing),
    }
}
