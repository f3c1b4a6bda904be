//! What a history says of a printer.

ghost use Rattle.std.specs.Prelude.{◌≡◌};
ghost use Rattle.spool_history.specs.Now as N;
ghost use Rattle.spool_history.specs.Said as D;
ghost use Rattle.account.specs.Seen.{base_seen, history, turn_seen};
ghost use Rattle.history_reader.specs.Seen.{out_seen, printer_seen};

use crate::state::Printer;
use account::{Base, Entry, Sheet, Turn};
use config_values::Config;

/// The page that is out at a printer.
fn out_at(entries: &[Entry], printer: u32) -> Option<Sheet>
    ensures { out_seen result ≡ D.out_at (history entries.now) printer }
{
    let Some((entry, before)) = entries.split_first() else {
        return None;
    };
    match entry {
        Entry::AtPrinter(at, sheet, turn) if *at == printer => {
            turn.is_handed().then_some(*sheet)
        }
        _ => out_at(before, printer),
    }
}

/// The job that a printer began last.
fn began_at(entries: &[Entry], printer: u32) -> Option<u64>
    ensures { result ≡ D.began_at (history entries.now) printer }
{
    let Some((entry, before)) = entries.split_first() else {
        return None;
    };
    match entry {
        Entry::AtPrinter(at, sheet, turn) if *at == printer && turn.is_handed() => Some(sheet.job),
        _ => began_at(before, printer),
    }
}

/// Whether a printer of a queue is stopped: it was, or a page failed at it, and the queue wasn't started since.
fn is_stopped_at(base: &Base, entries: &[Entry], queue: u32, printer: u32) -> bool
    ensures { result ≡ D.is_stopped_at (base_seen base.now) (history entries.now) queue printer }
{
    let Some((entry, before)) = entries.split_first() else {
        return base.was_stopped(printer);
    };
    match entry {
        Entry::AtPrinter(at, _, turn) => {
            (*at == printer && turn.is_failed()) || is_stopped_at(base, before, queue, printer)
        }
        Entry::Started(started) => *started != queue && is_stopped_at(base, before, queue, printer),
        _ => is_stopped_at(base, before, queue, printer),
    }
}

/// Whether the spool is closed: it was, or the close came.
pub fn is_closed(base: &Base, entries: &[Entry]) -> bool
    ensures { result ≡ D.is_closed (base_seen base.now) (history entries.now) }
{
    let Some((entry, before)) = entries.split_first() else {
        return base.closed;
    };
    matches!(entry, Entry::Closed) || is_closed(base, before)
}

/// What a history says of the printer of this number.
pub fn printer_in(config: &Config, base: &Base, entries: &[Entry], printer: u32) -> Printer
    ensures { printer_seen result
        ≡ N.printer_of config.now (base_seen base.now) (history entries.now) printer }
{
    let queue = config.queue_of(printer);
    Printer {
        queue,
        out: out_at(entries, printer),
        began: began_at(entries, printer),
        stopped: is_stopped_at(base, entries, queue, printer),
    }
}
