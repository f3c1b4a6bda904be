//! How a printer stands.

ghost use Rattle.std.specs.Prelude.{◌≡◌, ◌<◌, ◌^◌, count_by, option_copied, string_bytes};
ghost use Rattle.std.specs.List.{list_any};
ghost use Rattle.spool_calls.specs.declared.printer.Printer.{Printer as Seen};
ghost use Rattle.standings.specs.Noted.{stop_in, unreached_in};
ghost use Rattle.standings.specs.Printers.{cause_of, count_at, has_given_back, is_halted_at, is_put_off_at, is_reached_for, is_stopped_at, is_unreached_at, one_if, printer_standing, runs_for, stopped_by};

use crate::noted::PrinterNotes;
use spool_calls::Printer;

/// How a printer stands. Where several hold the first of these says it: it is stopped, it is put off, it isn't reached, it prints, its queue
/// is held, it is idle.
///
/// ```text
///            a page is handed to it          nothing of the page goes
///   Idle <----------------------> Printing <--------------------------> Unreached
///    ^ |      the job is left        | |        an octet of it goes        |
///    | | hold                        | | a page fails                      | a page fails
///    | v                             | v                                   |
///   Held <---------------------------+ Stopped <---------------------------+
///            the job is left          |                                    |
///                                     | its queue is started               | the job is put back
///                                     v                                    v
///                                  Idle, Held <------------------------ PutOff
///                                                it is tried again
/// ```
#[derive(Clone, Copy)]
pub enum PrinterStanding {
    /// It waits for a job.
    Idle,
    /// It has no page, and its queue is held.
    Held,
    /// It prints a place of a job: the job's number of acceptance, and the place in print order, from 0.
    Printing { job: u64, place: u64 },
    /// It has a place of a job, of which nothing goes for so many seconds: it isn't reached, or takes nothing.
    Unreached { job: u64, place: u64, seconds: u64 },
    /// It isn't reached since so many seconds, and its job was put back: it waits in the folder, and the printer is tried again by itself.
    PutOff { seconds: u64 },
    /// A page failed at it, so many seconds ago, where that is known; nothing is printed at it until its queue is started.
    Stopped { seconds: Option<u64> },
}

/// How a printer stands that is stopped, of which this is noted: where no fault stopped it, and it isn't reached, it has given its job back.
fn stopped_standing(notes: Option<&PrinterNotes>) -> PrinterStanding
    ensures { result ≡ stopped_by (stop_in (option_copied notes.entry))
        (unreached_in (option_copied notes.entry)) }
{
    let Some(notes) = notes else {
        return PrinterStanding::Stopped { seconds: None };
    };
    if let Some(stop) = &notes.stop {
        return PrinterStanding::Stopped {
            seconds: Some(stop.seconds),
        };
    }
    match &notes.unreached {
        Some(trouble) => PrinterStanding::PutOff {
            seconds: trouble.seconds,
        },
        None => PrinterStanding::Stopped { seconds: None },
    }
}

/// How a printer stands, of which this is noted, and whose queue is held or isn't.
pub fn printer_standing(
    printer: &Printer,
    is_held: bool,
    notes: Option<&PrinterNotes>,
) -> PrinterStanding
    ensures { result ≡ printer_standing printer.now is_held (option_copied notes.entry) }
{
    if printer.stopped {
        return stopped_standing(notes);
    }
    let Some(sheet) = printer.out else {
        return if is_held {
            PrinterStanding::Held
        } else {
            PrinterStanding::Idle
        };
    };
    let (job, place) = (sheet.job, sheet.place);
    match notes.and_then(|notes| notes.unreached.as_ref()) {
        Some(trouble) => PrinterStanding::Unreached {
            job,
            place,
            seconds: trouble.seconds,
        },
        None => PrinterStanding::Printing { job, place },
    }
}

/// What is the matter with a printer that stands so, where it is known: nothing where a printer needs nobody.
pub fn cause_of<'a>(standing: PrinterStanding, notes: Option<&'a PrinterNotes>) -> &'a str
    ensures { result.now ≡ cause_of standing (option_copied notes.entry) }
{
    let trouble = match standing {
        PrinterStanding::Stopped { .. } => notes.and_then(|notes| notes.stop.as_ref()),
        PrinterStanding::Unreached { .. } | PrinterStanding::PutOff { .. } => {
            notes.and_then(|notes| notes.unreached.as_ref())
        }
        PrinterStanding::Idle | PrinterStanding::Held | PrinterStanding::Printing { .. } => None,
    };
    trouble.map_or("", |trouble| trouble.cause.as_str())
}

/// Whether a printer serves this queue and isn't stopped.
pub(crate) fn runs_for(queue: u32, printer: &Printer) -> bool
    ensures { result ≡ runs_for queue printer.now }
{
    printer.queue == queue && !printer.stopped
}

/// Whether a printer of this queue isn't stopped.
pub fn is_served(printers: &[Printer], queue: u32) -> bool
    ensures { result ≡ list_any (runs_for queue) printers.now }
{
    printers.iter().any(|printer| runs_for(queue, printer))
}

/// 1 where it is so, else 0.
fn one_if(so: bool) -> usize
    ensures { result ≡ one_if so }
{
    usize::from(so)
}

/// Whether a printer of which this is noted has given its job back, and is tried again by itself.
fn has_given_back(notes: Option<&PrinterNotes>, printer: &Printer) -> bool
    ensures { result ≡ has_given_back (option_copied notes.entry) printer.now }
{
    match notes {
        Some(notes) => { notes.unreached.is_some() && !notes.stop.is_some() && printer.stopped }
        None => false,
    }
}

/// Whether the printer at a place has given its job back, and is tried again by itself.
pub fn is_put_off_at(notes: &[PrinterNotes], at: usize, printer: &Printer) -> bool
    ensures { result ≡ is_put_off_at notes.now at printer.now }
{
    has_given_back(notes.get(at), printer)
}

/// Whether the printer at a place is stopped, and isn't tried again by itself.
pub fn is_stopped_at(notes: &[PrinterNotes], at: usize, printer: &Printer) -> bool
    ensures { result ≡ is_stopped_at notes.now at printer.now }
{
    printer.stopped && !is_put_off_at(notes, at, printer)
}

/// How many of these printers are stopped, and aren't tried again by themselves.
pub fn stopped_printers(notes: &[PrinterNotes], printers: &[Printer]) -> usize
    ensures { result ≡ count_at (is_stopped_at notes.now) 0 printers.now }
{
    let mut count = 0;
    for (i, printer) in printers.iter().enumerate() {
        count += one_if(is_stopped_at(notes, i, printer));
    }
    count
}

/// Whether the printer at a place has a page of which nothing goes.
fn is_halted_at(notes: &[PrinterNotes], at: usize, printer: &Printer) -> bool
    ensures { result ≡ is_halted_at notes.now at printer.now }
{
    let is_noted = notes.get(at).is_some_and(|notes| notes.unreached.is_some());
    is_noted && printer.out.is_some() && !printer.stopped
}

/// Whether the printer at a place isn't reached: it has a page of which nothing goes, or has given its job back.
pub fn is_unreached_at(notes: &[PrinterNotes], at: usize, printer: &Printer) -> bool
    ensures { result ≡ is_unreached_at notes.now at printer.now }
{
    is_halted_at(notes, at, printer) || is_put_off_at(notes, at, printer)
}

/// How many of these printers aren't reached.
pub fn unreached_printers(notes: &[PrinterNotes], printers: &[Printer]) -> usize
    ensures { result ≡ count_at (is_unreached_at notes.now) 0 printers.now }
{
    let mut count = 0;
    for (i, printer) in printers.iter().enumerate() {
        count += one_if(is_unreached_at(notes, i, printer));
    }
    count
}

/// Whether the printer at a place runs for this queue, and is reached.
fn is_reached_for(notes: &[PrinterNotes], queue: u32, at: usize, printer: &Printer) -> bool
    ensures { result ≡ is_reached_for notes.now queue at printer.now }
{
    runs_for(queue, printer) && !is_unreached_at(notes, at, printer)
}

/// How many of these printers run for this queue, and are reached.
pub fn reached_printers(notes: &[PrinterNotes], queue: u32, printers: &[Printer]) -> usize
    ensures { result ≡ count_at (is_reached_for notes.now queue) 0 printers.now }
{
    let mut count = 0;
    for (i, printer) in printers.iter().enumerate() {
        count += one_if(is_reached_for(notes, queue, i, printer));
    }
    count
}
