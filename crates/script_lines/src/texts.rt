//! The lines that a script prints.

ghost use Rattle.std.specs.Prelude.{◌≡◌, IfOk, string_bytes};
ghost use Rattle.script_lines.specs.Texts as T;

use spool_trace::{Given, Progress, ShownPage};
use std::alloc::{AllocError, Global};

/// Why a session stopped.
#[derive(Clone, Copy, Debug, PartialEq, Eq)]
pub enum Stop {
    /// It waits for octets.
    Waiting,
    /// It waits for a page.
    Later,
    /// It is over.
    Over,
}

/// That a host was connected, and the number of its session.
pub fn session_line(alloc: Global, session: usize) -> Result<String, AllocError>
    ensures { IfOk result (λ line. string_bytes line ≡ T.session_line session) }
{
    format!(in alloc; "session {session}\n")
}

/// What a session wrote in its turns, and why they stopped.
pub fn turns_line(
    alloc: Global,
    session: u32,
    written: &[u8],
    stop: Stop,
) -> Result<String, AllocError>
    ensures { IfOk result (λ line. string_bytes line ≡ T.turns_line session written.now stop) }
{
    let stop = shown_stop(stop);
    if written.is_empty() {
        return format!(in alloc; "{session}: -{stop}\n");
    }
    let octets = hex::encode(alloc, written)?;
    format!(in alloc; "{session}: {octets}{stop}\n")
}

/// What is told of why a session stopped.
fn shown_stop(stop: Stop) -> &'static str
    ensures { result.now ≡ T.shown_stop stop }
{
    match stop {
        Stop::Waiting => "",
        Stop::Later => " later",
        Stop::Over => " ended",
    }
}

/// What is told of a session in one word.
pub fn session_told(alloc: Global, session: u32, told: &str) -> Result<String, AllocError>
    ensures { IfOk result (λ line. string_bytes line ≡ T.of_session session told.now) }
{
    format!(in alloc; "{session}: {told}\n")
}

/// What a printer was given.
pub fn given_line(alloc: Global, printer: u32, given: &Given) -> Result<String, AllocError>
    ensures { IfOk result (λ line. string_bytes line ≡ T.given_line printer given.now) }
{
    match given {
        Given::Page(page) => page_line(alloc, printer, page),
        Given::Nothing => printer_line(alloc, printer, "nothing"),
        Given::Stopped => printer_line(alloc, printer, "stopped"),
        Given::Busy => printer_line(alloc, printer, "busy"),
        Given::Closed => printer_line(alloc, printer, "closed"),
    }
}

/// The page that a printer was given.
fn page_line(alloc: Global, printer: u32, page: &ShownPage) -> Result<String, AllocError>
    ensures { IfOk result (λ line.
        string_bytes line ≡ T.of_printer printer (T.shown_page page.now)) }
{
    let (job, place) = (page.job, page.place);
    let octets = hex::encode(alloc, page.octets.as_slice())?;
    format!(in alloc; "printer {printer}: job {job} place {place} {octets}\n")
}

/// What is told of a printer.
pub fn printer_line(alloc: Global, printer: u32, told: &str) -> Result<String, AllocError>
    ensures { IfOk result (λ line. string_bytes line ≡ T.of_printer printer told.now) }
{
    format!(in alloc; "printer {printer}: {told}\n")
}

/// What is said of the job of a page that came back from a printer.
pub fn progress_line(alloc: Global, printer: u32, progress: Progress) -> Result<String, AllocError>
    ensures { IfOk result (λ line. string_bytes line ≡ T.progress_line printer progress) }
{
    match progress {
        Progress::Going => printer_line(alloc, printer, "going"),
        Progress::Done => printer_line(alloc, printer, "done"),
        Progress::Ended => printer_line(alloc, printer, "ended"),
    }
}

/// How many pages are free.
pub fn free_line(alloc: Global, free: usize) -> Result<String, AllocError>
    ensures { IfOk result (λ line. string_bytes line ≡ T.free_line free) }
{
    format!(in alloc; "free {free}\n")
}
