//! The trail of a printer whose octets are in one file.
//!
//! Behind a page that failed nothing is judged until the next run: how much of it was written nobody knows. What lies between the end of
//! a run and the length that the next run's head tells is not judged either: a run that was killed has printed pages of which the account
//! says nothing.

ghost use Rattle.std.specs.Prelude.{◌≡◌, ◌≤◌, ◌<◌, ◌+◌, ◌-◌, ◌^◌, IfErr, MatchOption, MatchResult, OnErr, OnOk, None, Some, Option};
ghost use Rattle.account.specs.Seen.{event_seen, sheet_seen};
ghost use Rattle.printed_pages.specs.Sources.{IsThere};
ghost use Rattle.printed_pages.specs.Trails as T;

use crate::page::judge;
use crate::source::{PrintedOctets, TrailFault, read_at};
use account::{Entry, Sheet, Turn};
use std::alloc::Global;

/// What a run that begins says of a printer's file.
#[derive(Clone, Copy, Debug, PartialEq, Eq)]
pub enum RunBegins {
    /// It goes on where the pages before ended, or where these ended isn't known.
    There,
    /// So many octets lie between the pages before and its own. They aren't judged.
    Behind(u64),
    /// The file was shorter than by the pages before, by so many octets: these were written over, or lost.
    Shorter(u64),
}

/// The trail of a printer in its file: what the account says that it was handed, held against what is read.
#[derive(Drop)]
pub struct PrinterTrail {
    /// The number of the printer.
    printer: u32,
    /// At which octet of the file its next page begins, where that is known.
    position: Option<u64>,
    /// How many octets were judged.
    judged: u64,
    /// How many octets of printed pages weren't.
    unjudged: u64,
}

/// A sum of octets, up to the last number of 64 bits.
fn told_sum(some: u64, more: u32) -> u64
    ensures { result ≡ T.told_sum some more }
{
    some.saturating_add(u64::from(more))
}

/// Reads a printed page again, which begins at the octet `at` of a printer's file, and tells where the next one does.
pub(crate) fn find<P: PrintedOctets>(
    printer: u32,
    alloc: Global,
    source: &mut P,
    at: u64,
    sheet: &Sheet,
) -> Result<u64, TrailFault>
    ensures next { MatchResult result (λ next. next ≡ at + sheet.now.page.length)
        (T.IsIn printer at (sheet_seen sheet.now)) }
    ensures there { OnOk result (IsThere at (P.octets source.old) sheet.now.page) }
    ensures octets { P.octets source.new ≡ P.octets source.old }
{
    let Some(next) = at.checked_add(u64::from(sheet.page.length)) else {
        return Err(TrailFault::Unread);
    };
    let mut buffer = vec![in alloc; 0; sheet.page.length as usize]?;
    let Some(read) = read_at(source, at, buffer.as_mut_slice()) else {
        return Err(TrailFault::Unread);
    };
    let octets = buffer.as_slice();
    judge(printer, sheet, at, &octets[..read])?;
    Ok(next)
}

impl PrinterTrail {
    /// The trail of the printer of this number, before any run.
    pub fn new(printer: u32) -> PrinterTrail
        ensures { result ≡ record { printer = printer; position = None; judged = 0; unjudged = 0 } }
    {
        PrinterTrail {
            printer,
            position: None,
            judged: 0,
            unjudged: 0,
        }
    }

    /// A run begins, in which the file had this length, or was none that can be read again.
    pub fn begin_run(&mut self, length: Option<u64>) -> RunBegins
        ensures trail { self.new ≡ record self.old { position = length } }
        ensures said { T.IsSaid self.old.position length result }
    {
        let before = self.position;
        self.position = length;
        let (Some(before), Some(length)) = (before, length) else {
            return RunBegins::There;
        };
        if length < before {
            return RunBegins::Shorter(before - length);
        }
        if before < length {
            return RunBegins::Behind(length - before);
        }
        RunBegins::There
    }

    /// Reads one entry more, in order of writing: a page that was printed is read again, if it is known where it begins.
    ///
    /// `Differs` where what is read isn't the page, `Unread` where it can't be read, `Memory` where memory for a page is refused; then
    /// nothing has changed. It takes memory for one page.
    pub fn take<P: PrintedOctets>(
        &mut self,
        alloc: Global,
        source: &mut P,
        entry: &Entry,
    ) -> Result<(), TrailFault>
        ensures ok { OnOk result (self.new
            ≡ T.behind (T.fate_at self.old.printer (event_seen entry.now)) self.old) }
        ensures read { OnOk result (T.IsRead (T.fate_at self.old.printer (event_seen entry.now))
            self.old.position (P.octets source.old)) }
        ensures octets { P.octets source.new ≡ P.octets source.old }
        ensures unchanged { OnErr result (self.new ≡ self.old) }
        ensures err { IfErr result (T.IsOfPage self.old (event_seen entry.now)) }
    {
        let Entry::AtPrinter(printer, sheet, turn) = entry else {
            return Ok(());
        };
        if *printer != self.printer {
            return Ok(());
        }
        match (turn, self.position) {
            (Turn::Handed, _) => {}
            (Turn::Failed, _) => self.position = None,
            (Turn::Printed(_), None) => self.unjudged = told_sum(self.unjudged, sheet.page.length),
            (Turn::Printed(_), Some(at)) => {
                let next = find(self.printer, alloc, source, at, sheet)?;
                self.position = Some(next);
                self.judged = told_sum(self.judged, sheet.page.length);
            }
        }
        Ok(())
    }

    /// The number of the printer.
    pub fn printer(&self) -> u32
        ensures { result ≡ self.now.printer }
    {
        self.printer
    }

    /// At which octet of the file the next page begins. None where that isn't known: before a run, behind a failed page, and where
    /// the file can't be read again.
    pub fn position(&self) -> Option<u64>
        ensures { result ≡ self.now.position }
    {
        self.position
    }

    /// How many octets were judged, and are as printed: up to 2^64 - 1.
    pub fn judged(&self) -> u64
        ensures { result ≡ self.now.judged }
    {
        self.judged
    }

    /// How many octets of printed pages weren't judged, because it isn't known where they begin: up to 2^64 - 1.
    pub fn unjudged(&self) -> u64
        ensures { result ≡ self.now.unjudged }
    {
        self.unjudged
    }

    /// The account ends, and the file has this length: how many octets lie behind the last page. They aren't judged. None where it isn't
    /// known where that ended, or the file ends before.
    pub fn end(&self, length: u64) -> Option<u64>
        ensures { MatchOption result (T.IsNoTail self.now.position length)
            (λ n. (self.now.position ≡ Some (length - n)) × (n ≤ length)) }
    {
        let at = self.position?;
        length.checked_sub(at)
    }
}
