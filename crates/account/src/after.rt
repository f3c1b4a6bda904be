//! The base after entries that leave no job held.

ghost use Rattle.std.specs.Prelude.{◌≡◌, ◌<◌, ◌≤◌, ◌+◌, ◌^◌, [], IfOk, count_by, length, map, reverse};
ghost use Rattle.config_values.specs.Config as C;
ghost use Rattle.spool_history.specs.Now.{now, up_to};
ghost use Rattle.spool_history.specs.Rotated.{rotated};
ghost use Rattle.spool_history.specs.Said.{is_closed, openings};
ghost use Rattle.spool_history.specs.Steps.{accepted_by, closed_after};
ghost use Rattle.account.specs.declared.entry.Outline.{Outline};
ghost use Rattle.account.specs.declared.after.Printer.{Printer};
ghost use Rattle.account.specs.After.{printer_in, printers_after, started, stopped_at};
ghost use Rattle.account.specs.Seen.{base_seen, event_seen, history};

use crate::base::Base;
use crate::entry::{Entry, Turn};
use config_values::Config;
use std::alloc::{AllocError, Global};

/// What is known of a printer while entries are read.
#[derive(Clone, Copy)]
struct Printer {
    /// The number of the queue that it serves.
    queue: u32,
    /// Whether it is stopped.
    stopped: bool,
}

/// The printers of a spool as a base left them, in the order of their numbers.
fn printers_of(alloc: Global, config: &Config, base: &Base) -> Result<Vec<Printer>, AllocError>
    ensures { IfOk result (λ v. v.items
        ≡ map (printer_in {C = Outline} config.now (base_seen base.now) [])
        (up_to (C.printer_count config.now))) }
{
    let mut printers = Vec::with_capacity(alloc, config.printer_count() as usize)?;
    for before in 0..config.printer_count() {
        printers.push(Printer {
            queue: config.queue_of(before + 1),
            stopped: base.was_stopped(before + 1),
        })?;
    }
    Ok(printers)
}

/// Stops the printer of this number. 0 is the number of none.
fn stop(printers: &mut [Printer], number: u32)
    ensures { printers.new ≡ stopped_at number printers.old }
{
    let n = number as usize;
    if 0 < n && n <= printers.len() {
        printers[n - 1].stopped = true;
    }
}

/// Starts the printers of a queue.
fn start(printers: &mut [Printer], queue: u32)
    ensures { printers.new ≡ map (started queue) printers.old }
{
    for printer in printers.iter_mut() {
        if queue == printer.queue {
            printer.stopped = false;
        }
    }
}

/// Whether each of these printers is stopped.
fn stops_of(alloc: Global, printers: &[Printer]) -> Result<Vec<bool>, AllocError>
    ensures { IfOk result (λ v. v.items ≡ map (λ (p : Printer). p.stopped) printers.now) }
{
    printers
        .iter()
        .map(|printer| printer.stopped)
        .collect(alloc)
}

/// How many of these printers are stopped.
fn count_stopped(printers: &[Printer]) -> u64
    ensures { result ≡ count_by (λ (p : Printer). p.stopped) printers.now }
{
    printers.iter().filter(|printer| printer.stopped).count() as u64
}

/// What entries leave, as far as they were read.
#[derive(Drop)]
struct Reading {
    accepted: u64,
    closed: bool,
    printers: Vec<Printer>,
}

impl Reading {
    /// Reads one entry more.
    fn read(&mut self, entry: &Entry)
        requires { self.old.accepted + length (accepted_by (event_seen entry.now)) < 2 ^ 64 }
        ensures accepted { self.new.accepted
            ≡ self.old.accepted + length (accepted_by (event_seen entry.now)) }
        ensures closed { self.new.closed ≡ closed_after (event_seen entry.now) self.old.closed }
        ensures printers { self.new.printers.items
            ≡ printers_after (event_seen entry.now) self.old.printers.items }
    {
        match entry {
            Entry::Opened { .. } => self.accepted += 1,
            Entry::AtPrinter(printer, _, Turn::Failed) => {
                stop(self.printers.as_mut_slice(), *printer);
            }
            Entry::Started(queue) => start(self.printers.as_mut_slice(), *queue),
            Entry::Closed => self.closed = true,
            Entry::OfJob(_, _) | Entry::AtPrinter(_, _, _) | Entry::Removed(_, _) => {}
        }
    }
}

/// The base after these entries, which stand in order of writing, begin from a base and leave no job held: the last
/// acceptance number, the close and the stopped printers as they are, and one counted entry for each
/// stopped printer. It takes one pass over the entries, and one over the printers for each start of a queue.
///
/// AllocError where memory for it is refused.
pub fn base_after(
    alloc: Global,
    config: &Config,
    base: &Base,
    entries: &[Entry],
) -> Result<Base, AllocError>
    requires { (now config.now (base_seen base.now)
        (history (reverse entries.now))).accepted < 2 ^ 64 }
    ensures { IfOk result (λ b. base_seen b
        ≡ rotated (now config.now (base_seen base.now) (history (reverse entries.now)))) }
{
    let mut reading = Reading {
        accepted: base.accepted,
        closed: base.closed,
        printers: printers_of(alloc, config, base)?,
    };
    for entry in entries {
        reading.read(entry);
    }
    let printers = reading.printers.as_slice();
    Ok(Base {
        accepted: reading.accepted,
        reserved: count_stopped(printers),
        closed: reading.closed,
        stopped: stops_of(alloc, printers)?,
    })
}
