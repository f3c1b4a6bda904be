//! What may become of a page at a printer.

ghost use Rattle.std.specs.Prelude.{◌≡◌, ◌∷◌, ◌↔◌, Some, IfOk, IsTrue, map, slice_index_or};
ghost use Rattle.spool_history.specs.Next as X;
ghost use Rattle.spool_history.specs.Legal as L;
ghost use Rattle.account.specs.Seen.{progress_seen, sheet_seen, turn_seen};
ghost use Rattle.history_reader.specs.Seen.{job_seen, printer_seen, state_seen};

use account::{Progress, Sheet, Turn};
use config_values::Config;
use history_reader::{Job, Next, State, next_page, printer_numbered};
use std::alloc::{AllocError, Global};

/// Whether two pages at a printer are the same.
pub(crate) fn is_same_sheet(a: &Sheet, b: &Sheet) -> bool
    ensures { IsTrue result ↔ sheet_seen a.now ≡ sheet_seen b.now }
{
    *a == *b
}

/// Whether this page is out at a printer.
fn is_out(state: &State, printer: u32, sheet: &Sheet) -> bool
    ensures { IsTrue result
        ↔ (slice_index_or (X.no_printer ∷ map printer_seen state.now.printers.items) printer X.no_printer).out
        ≡ Some (sheet_seen sheet.now) }
{
    let out = printer_numbered(state, printer).out;
    out.is_some_and(|out| is_same_sheet(&out, sheet))
}

/// Whether this page is the one that a printer gets next.
fn may_hand(
    alloc: Global,
    config: &Config,
    state: &State,
    printer: u32,
    sheet: &Sheet,
) -> Result<bool, AllocError>
    ensures { IfOk result (λ b. IsTrue b ↔ X.next_page (state_seen config.now state.now) printer
        ≡ X.Next.Hands (sheet_seen sheet.now)) }
{
    match next_page(alloc, config, state, printer)? {
        Next::Hands(next) => Ok(is_same_sheet(&next, sheet)),
        _ => Ok(false),
    }
}

/// What is said of a job when a page of it was printed.
fn progress_of(alloc: Global, job: &Job) -> Result<Progress, AllocError>
    ensures { IfOk result (λ p. progress_seen p ≡ L.progress_of (job_seen job.now)) }
{
    if job.ended {
        return Ok(Progress::Ended);
    }
    let places = job.places(alloc)?;
    if u128::from(job.back) + 1 == places.len() as u128 {
        Ok(Progress::Done)
    } else {
        Ok(Progress::Going)
    }
}

/// Whether this is said of a job when a page of it was printed.
fn makes(alloc: Global, job: &Job, progress: Progress) -> Result<bool, AllocError>
    ensures { IfOk result (λ b. IsTrue b ↔ progress_seen progress
        ≡ L.progress_of (job_seen job.now)) }
{
    Ok(progress == progress_of(alloc, job)?)
}

/// Whether this is said of a job of this number when a page of it was printed.
fn some_job_makes(
    alloc: Global,
    jobs: &[Job],
    number: u64,
    progress: Progress,
) -> Result<bool, AllocError>
    ensures { IfOk result (λ b. IsTrue b
        ↔ L.HasJob (map job_seen jobs.now) number (λ job. progress_seen progress
        ≡ L.progress_of job)) }
{
    let Some((job, rest)) = jobs.split_first() else {
        return Ok(false);
    };
    if job.number == number && makes(alloc, job, progress)? {
        return Ok(true);
    }
    some_job_makes(alloc, rest, number, progress)
}

/// Whether a page at a printer may become this.
pub(crate) fn may_turn(
    alloc: Global,
    config: &Config,
    state: &State,
    printer: u32,
    sheet: &Sheet,
    turn: Turn,
) -> Result<bool, AllocError>
    ensures { IfOk result (λ b. IsTrue b
        ↔ L.MayTurn (state_seen config.now state.now) printer (sheet_seen sheet.now)
        (turn_seen turn)) }
{
    match turn {
        Turn::Handed => may_hand(alloc, config, state, printer, sheet),
        Turn::Printed(progress) => {
            if !is_out(state, printer, sheet) {
                return Ok(false);
            }
            some_job_makes(alloc, state.jobs.as_slice(), sheet.job, progress)
        }
        Turn::Failed => Ok(is_out(state, printer, sheet)),
    }
}
