//! The whole answer.

ghost use Rattle.std.specs.Prelude.{◌≡◌, ◌<◌, ◌^◌, ◌++◌, IfOk, OnOk, IsUtf8, slice_get, string_bytes};
ghost use Rattle.std.specs.List.{flat_map};
ghost use Rattle.claims.specs.Claims.{row_at};
ghost use Rattle.status_lines.specs.Pieces.{one_line};
ghost use Rattle.status_lines.specs.Status.{all_parked_text, ended, head_text, job_text, jobs_text, kept_text, numbers_at, pages_in, parked_text, placed, printer_text, printer_told, queue_state, queue_text, queues_text, session_text, spool_state, standing_at, status_text};
ghost use Rattle.status_lines.specs.Words.{line_words, trouble_line};
ghost use Rattle.standings.specs.Printers.{cause_of};

use crate::line::{JobPages, PrinterTrouble, QueueState, SpoolState, StatusLine};
use crate::outside::{KeptJobs, Outside, SeenSession};
use crate::pieces::{name_text, one_line, pages_of, queue_name};
use claims::Row;
use config_values::{Config, Queue};
use spool_calls::Printer;
use spool_snapshot::{SeenJob, Snapshot};
use standings::{
    EdgeNotes, JobNumbers, PrinterStanding, cause_of, is_held, job_standing, printer_standing,
};
use std::alloc::{AllocError, Global};

/// Puts a line with its LF at the end of the text.
fn push(text: &mut String, line: StatusLine<'_>) -> Result<(), AllocError>
    ensures { OnOk result
        (string_bytes text.new ≡ string_bytes text.old ++ ended (line_words line.entry)) }
{
    write!(text, "{line}\n")
}

/// Whether a spool that is closed or isn't takes jobs, of a server that was asked to stop or wasn't.
pub fn spool_state(closed: bool, stops: bool) -> SpoolState
    ensures { result ≡ spool_state closed stops }
{
    if closed {
        SpoolState::Closed
    } else if stops {
        SpoolState::Stops
    } else {
        SpoolState::Runs
    }
}

/// Whether the queue at a place is held.
fn queue_state(held: &[bool], at: usize) -> QueueState
    ensures { result ≡ queue_state held.now at }
{
    if held.get(at).copied().unwrap_or(false) {
        QueueState::Held
    } else {
        QueueState::Runs
    }
}

/// Puts what is told first at the end of the text.
fn push_head(
    text: &mut String,
    config: &Config,
    snapshot: &Snapshot,
    outside: &Outside<'_>,
) -> Result<(), AllocError>
    ensures { OnOk result (string_bytes text.new
        ≡ string_bytes text.old ++ head_text config.now snapshot.now outside.now) }
{
    let (seconds, waiting) = (outside.uptime, outside.lobby);
    let (pages, state) = (snapshot.pages, spool_state(snapshot.closed, outside.stops));
    push(text, StatusLine::Uptime { seconds })?;
    push(text, StatusLine::Spool { state })?;
    push(text, StatusLine::Pages { pages })?;
    let entries = StatusLine::Entries {
        counted: snapshot.reserved,
        most: config.account(),
        segment: outside.segment,
    };
    push(text, entries)?;
    push(text, StatusLine::Lobby { waiting })
}

/// Puts the line of the folder that keeps the jobs, where there is one, at the end of the text.
fn push_kept(text: &mut String, kept: Option<KeptJobs>) -> Result<(), AllocError>
    ensures { OnOk result (string_bytes text.new ≡ string_bytes text.old ++ kept_text kept) }
{
    match kept {
        None => Ok(()),
        Some(KeptJobs { waiting, failed }) => push(text, StatusLine::Kept { waiting, failed }),
    }
}

/// Puts the line of how many jobs of the queue at a place wait in the folder at the end of the text, where some do.
fn push_parked_of(
    text: &mut String,
    placed: (usize, &Queue),
    parked: &[u64],
) -> Result<(), AllocError>
    requires name { IsUtf8 placed.1.now.name }
    ensures { OnOk result (string_bytes text.new ≡ string_bytes text.old
        ++ parked_text parked.now placed.entry.0 placed.entry.1.now) }
{
    let (at, queue) = placed;
    let jobs = parked.get(at).copied().unwrap_or(0);
    if jobs == 0 {
        return Ok(());
    }
    let queue = name_text(queue.name());
    push(text, StatusLine::Parked { queue, jobs })
}

/// Puts the lines of how many jobs of each queue wait in the folder at the end of the text.
fn push_parked(text: &mut String, config: &Config, parked: &[u64]) -> Result<(), AllocError>
    ensures { OnOk result (string_bytes text.new
        ≡ string_bytes text.old ++ all_parked_text config.now parked.now) }
{
    for (i, queue) in config.queues().iter().enumerate() {
        push_parked_of(text, (i, queue), parked)?;
    }
    Ok(())
}

/// Puts the lines of these sessions at the end of the text.
fn push_sessions(text: &mut String, sessions: &[SeenSession]) -> Result<(), AllocError>
    ensures { OnOk result (string_bytes text.new
        ≡ string_bytes text.old ++ flat_map session_text sessions.now) }
{
    for session in sessions {
        let line = StatusLine::Session {
            peer: session.peer,
            silent: session.silent,
        };
        push(text, line)?;
    }
    Ok(())
}

/// Puts a line of what is the matter with a printer at the end of the text.
fn push_trouble(
    alloc: Global,
    text: &mut String,
    printer: (usize, &str),
    trouble: (PrinterTrouble, u64),
    cause: &str,
) -> Result<(), AllocError>
    ensures { OnOk result (string_bytes text.new ≡ string_bytes text.old
        ++ ended (trouble_line printer.entry.0 printer.entry.1.now trouble.0 trouble.1 (one_line cause.now))) }
{
    let ((number, queue), (trouble, seconds)) = (printer, trouble);
    let shown = one_line(alloc, cause)?;
    let line = StatusLine::Trouble {
        number,
        queue,
        trouble,
        seconds,
        cause: shown.as_str(),
    };
    push(text, line)
}

/// Puts the lines of a printer that stands so at the end of the text.
fn push_printer(
    alloc: Global,
    text: &mut String,
    printer: (usize, &str),
    standing: PrinterStanding,
    cause: &str,
) -> Result<(), AllocError>
    ensures { OnOk result (string_bytes text.new ≡ string_bytes text.old
        ++ printer_told printer.entry.0 printer.entry.1.now standing cause.now) }
{
    let (number, queue) = printer;
    if let PrinterStanding::Stopped {
        seconds: Some(seconds),
    } = standing
    {
        return push_trouble(
            alloc,
            text,
            printer,
            (PrinterTrouble::Stopped, seconds),
            cause,
        );
    }
    let line = StatusLine::Printer {
        number,
        queue,
        standing,
    };
    push(text, line)?;
    match standing {
        PrinterStanding::Unreached { seconds, .. } => {
            let trouble = (PrinterTrouble::Unreached, seconds);
            push_trouble(alloc, text, printer, trouble, cause)
        }
        PrinterStanding::PutOff { seconds } => {
            let trouble = (PrinterTrouble::PutOff, seconds);
            push_trouble(alloc, text, printer, trouble, cause)
        }
        PrinterStanding::Idle
        | PrinterStanding::Held
        | PrinterStanding::Printing { .. }
        | PrinterStanding::Stopped { .. } => Ok(()),
    }
}

/// How the printer at a place stands.
fn standing_at(noted: &EdgeNotes<'_>, at: usize, printer: &Printer) -> PrinterStanding
    ensures { result ≡ standing_at noted.now at printer.now }
{
    let is_held = is_held(noted.held, printer.queue);
    printer_standing(printer, is_held, noted.printers.get(at))
}

/// What is the matter with the printer at a place that stands so.
fn cause_at<'a>(noted: &EdgeNotes<'a>, at: usize, standing: PrinterStanding) -> &'a str
    ensures { result.now ≡ cause_of standing (slice_get noted.now.printers.now at) }
{
    cause_of(standing, noted.printers.get(at))
}

/// Puts the lines of the printer at a place at the end of the text, where it serves the queue of this number.
fn push_served(
    alloc: Global,
    text: &mut String,
    queue: (usize, &str),
    placed: (usize, &Printer),
    noted: &EdgeNotes<'_>,
) -> Result<(), AllocError>
    requires { placed.0 < 2 ^ 63 }
    ensures { OnOk result (string_bytes text.new ≡ string_bytes text.old
        ++ printer_text queue.entry.0 queue.entry.1.now noted.now placed.entry.0 placed.entry.1.now) }
{
    let ((number, name), (at, printer)) = (queue, placed);
    if printer.queue as usize != number {
        return Ok(());
    }
    let standing = standing_at(noted, at, printer);
    let cause = cause_at(noted, at, standing);
    push_printer(alloc, text, (at + 1, name), standing, cause)
}

/// Puts the lines of those of these printers that serve the queue of this number at the end of the text.
fn push_printers(
    alloc: Global,
    text: &mut String,
    queue: (usize, &str),
    printers: &[Printer],
    noted: &EdgeNotes<'_>,
) -> Result<(), AllocError>
    ensures { OnOk result (string_bytes text.new ≡ string_bytes text.old
        ++ placed (printer_text queue.entry.0 queue.entry.1.now noted.now) 0 printers.now) }
{
    for (i, printer) in printers.iter().enumerate() {
        push_served(alloc, text, queue, (i, printer), noted)?;
    }
    Ok(())
}

/// Puts the line of the queue at a place, and of its printers under it, at the end of the text.
fn push_queue(
    alloc: Global,
    text: &mut String,
    placed: (usize, &Queue),
    printers: &[Printer],
    noted: &EdgeNotes<'_>,
) -> Result<(), AllocError>
    requires name { IsUtf8 placed.1.now.name }
    requires place { placed.0 < 2 ^ 63 }
    ensures { OnOk result (string_bytes text.new ≡ string_bytes text.old
        ++ queue_text printers.now noted.now placed.entry.0 placed.entry.1.now) }
{
    let (at, queue) = placed;
    let name = name_text(queue.name());
    let state = queue_state(noted.held, at);
    push(text, StatusLine::Queue { name, state })?;
    push_printers(alloc, text, (at + 1, name), printers, noted)
}

/// Puts the lines of the queues, and of its printers under each, at the end of the text.
fn push_queues(
    alloc: Global,
    text: &mut String,
    config: &Config,
    printers: &[Printer],
    noted: &EdgeNotes<'_>,
) -> Result<(), AllocError>
    ensures { OnOk result (string_bytes text.new
        ≡ string_bytes text.old ++ queues_text config.now printers.now noted.now) }
{
    for (i, queue) in config.queues().iter().enumerate() {
        push_queue(alloc, text, (i, queue), printers, noted)?;
    }
    Ok(())
}

/// What the row at a place says of pages, and nothing where there is none.
fn pages_at(rows: &[Row], at: usize) -> JobPages
    ensures { result ≡ pages_in (row_at rows.now at) }
{
    match rows.get(at) {
        Some(row) => JobPages {
            holds: pages_of(&row.held),
            needs: pages_of(&row.need),
        },
        None => JobPages { holds: 0, needs: 0 },
    }
}

/// What the job at a place is called outside of the spool.
fn numbers_at(numbers: &[JobNumbers], at: usize) -> JobNumbers
    ensures { result ≡ numbers_at numbers.now at }
{
    numbers.get(at).copied().unwrap_or(JobNumbers {
        file: None,
        client: None,
    })
}

/// Puts the line of the job at a place at the end of the text.
fn push_job(
    text: &mut String,
    config: &Config,
    spool: &Snapshot,
    noted: &EdgeNotes<'_>,
    placed: (usize, &SeenJob),
) -> Result<(), AllocError>
    ensures { OnOk result (string_bytes text.new ≡ string_bytes text.old
        ++ job_text config.now spool.now noted.now placed.entry.0 placed.entry.1.now) }
{
    let (at, job) = placed;
    let line = StatusLine::Job {
        job,
        queue: queue_name(config, job.queue),
        pages: pages_at(spool.claims.rows(), at),
        numbers: numbers_at(noted.numbers, at),
        standing: job_standing(spool, noted, config.page_size(), job),
    };
    push(text, line)
}

/// Puts the lines of the held jobs at the end of the text.
fn push_jobs(
    text: &mut String,
    config: &Config,
    spool: &Snapshot,
    noted: &EdgeNotes<'_>,
) -> Result<(), AllocError>
    ensures { OnOk result (string_bytes text.new
        ≡ string_bytes text.old ++ jobs_text config.now spool.now noted.now) }
{
    for (i, job) in spool.jobs.iter().enumerate() {
        push_job(text, config, spool, noted, (i, job))?;
    }
    Ok(())
}

/// The lines of the answer to `status`, each with its LF: the server, its spool, the pages, the account and the lobby; the folder that
/// keeps the jobs, and how many of each queue wait in it; the sessions;
/// the queues in the order of the configuration, each with its printers under it; and the held jobs in order of acceptance.
///
/// AllocError where memory for it is refused.
pub fn status_text(
    alloc: Global,
    config: &Config,
    snapshot: &Snapshot,
    outside: &Outside<'_>,
) -> Result<String, AllocError>
    ensures { IfOk result (λ text.
        string_bytes text ≡ status_text config.now snapshot.now outside.now) }
{
    let mut text = String::new(alloc);
    push_head(&mut text, config, snapshot, outside)?;
    push_kept(&mut text, outside.kept)?;
    push_parked(&mut text, config, outside.parked)?;
    push_sessions(&mut text, outside.sessions)?;
    let (printers, noted) = (snapshot.printers.as_slice(), &outside.noted);
    push_queues(alloc, &mut text, config, printers, noted)?;
    push_jobs(&mut text, config, snapshot, noted)?;
    Ok(text)
}
