//! The calls of a printer.

ghost use Rattle.std.specs.Prelude.{◌≡◌, ◌+◌, ◌<◌, ◌^◌, IfErr};
ghost use Rattle.account.specs.declared.kind.Kind.TheVariants as kind;
ghost use Rattle.config_values.specs.Config.{IsPrinter};
ghost use Rattle.spool_calls.specs.Calls.{IsRight, Fails, Hands, Prints};
ghost use Rattle.spool_calls.specs.declared.answers.Next.TheVariants as next;
ghost use Rattle.locked_spool.specs.Entries.{WritesFailed, WritesHanded, WritesPrinted};
ghost use Rattle.locked_spool.specs.Shares.{when_done, when_handed};
ghost use Rattle.locked_spool.specs.Waiting.{Waits, WhereNothing};

use crate::locked::{Locked, write};
use account::{Entry, Turn};
use spool_core::{Foreign, HandedPage, Next, Progress};
use spool_ledgers::{Shares, SpoolLedger};
use std::sync::ledger::Ledger;

impl<E: SpoolLedger, K: Ledger, H: Ledger> Locked<E, K, H> {
    /// Hands a printer its next page.
    fn hand(&mut self, mine: &mut Shares<E, K, H>, printer: u32) -> Next
        requires { 0 < mine.old.parts }
        ensures answer { IsPrinter E.config printer
            → IsRight self.old.core (λ d b h.
            Hands d b h self.old.core printer self.new.core result) }
        ensures none { (IsPrinter E.config printer → ⊥)
            → (result ≡ next.Closed) × (self.new ≡ self.old) }
        ensures waits { WhereNothing result (Waits E.config self.old printer) }
        ensures account { WritesHanded self.old self.new printer result }
        ensures shares { mine.new ≡ when_handed result mine.old }
    {
        if !self.core.config().is_printer(printer) {
            return Next::Closed;
        }
        match self.core.next(printer) {
            Next::Handed(page) => {
                let entry = Entry::AtPrinter(printer, page.sheet(), Turn::Handed);
                write(&mut self.account, &mut self.books, mine, entry);
                Next::Handed(page)
            }
            answer => answer,
        }
    }

    /// No share has more hand-outs than a number holds.
    fn bound(&mut self, mine: &mut Shares<E, K, H>)
        ensures same { self.new ≡ self.old }
        ensures shares { mine.new ≡ mine.old }
        ensures bound { mine.old.handed < 2 ^ 64 }
    {
        self.books.bound(mine);
        // Its contract bounds how many entries there are.
        let _entries = self.account.len();
    }

    /// Gives a printer its next page: the next place of the job that it began, while that hasn't ended, or else the first of
    /// the first job of its queue that is ready.
    ///
    /// Closed where the spool is closed, and for a number that no printer has; Stopped where a page failed at the printer and
    /// its queue wasn't started since; Busy while a page is out at it; Nothing where no job is next for it, or where all places
    /// of that job were handed out.
    pub fn next(&mut self, mine: &mut Shares<E, K, H>, printer: u32) -> Next
        requires { 0 < mine.old.parts }
        ensures answer { IsPrinter E.config printer
            → IsRight self.old.core (λ d b h.
            Hands d b h self.old.core printer self.new.core result) }
        ensures none { (IsPrinter E.config printer → ⊥)
            → (result ≡ next.Closed) × (self.new ≡ self.old) }
        ensures waits { WhereNothing result (Waits E.config self.old printer) }
        ensures account { WritesHanded self.old self.new printer result }
        ensures shares { mine.new ≡ when_handed result mine.old }
        // No share has more hand-outs than a number holds.
        ensures bound { mine.new.handed < 2 ^ 64 }
    {
        let answer = self.hand(mine, printer);
        self.bound(mine);
        answer
    }

    /// Takes back the page that is out at a printer, printed, and says how far its job is.
    ///
    /// Refused, with the page, where it isn't the one that is out at the printer, and for a number that no printer has.
    pub fn printed(
        &mut self,
        mine: &mut Shares<E, K, H>,
        printer: u32,
        page: HandedPage,
    ) -> Result<Progress, Foreign>
        requires { 0 < mine.old.parts }
        ensures answer { IsPrinter E.config printer
            → IsRight self.old.core (λ d b h.
            Prints d b h self.old.core printer page self.new.core result) }
        ensures back { IfErr result (λ e. (e.page ≡ page) × (self.new ≡ self.old)) }
        ensures account { WritesPrinted self.old self.new printer page result }
        ensures shares { mine.new ≡ when_done kind.Printed result mine.old }
    {
        if !self.core.config().is_printer(printer) {
            return Err(Foreign { page });
        }
        let Some(sheet) = self.core.out_at(printer) else {
            return Err(Foreign { page });
        };
        let said = self.core.printed(printer, page)?;
        // The entry names the page that was out by the core's own word: file and number of the one that is brought aren't compared.
        let entry = Entry::AtPrinter(printer, sheet, Turn::Printed(said));
        write(&mut self.account, &mut self.books, mine, entry);
        Ok(said)
    }

    /// Takes back the page that is out at a printer, which failed: its job ends, and the printer stops.
    ///
    /// Refused, with the page, where it isn't the one that is out at the printer, and for a number that no printer has.
    pub fn failed(
        &mut self,
        mine: &mut Shares<E, K, H>,
        printer: u32,
        page: HandedPage,
    ) -> Result<(), Foreign>
        requires { 0 < mine.old.parts }
        ensures answer { IsPrinter E.config printer
            → IsRight self.old.core (λ d b h.
            Fails d b h self.old.core printer page self.new.core result) }
        ensures back { IfErr result (λ e. (e.page ≡ page) × (self.new ≡ self.old)) }
        ensures account { WritesFailed self.old self.new printer page result }
        ensures shares { mine.new ≡ when_done kind.Failed result mine.old }
    {
        if !self.core.config().is_printer(printer) {
            return Err(Foreign { page });
        }
        let Some(sheet) = self.core.out_at(printer) else {
            return Err(Foreign { page });
        };
        self.core.failed(printer, page)?;
        // So a spool in which no page failed never looks at its printers to know whether it is idle.
        self.may_be_stopped = true;
        let entry = Entry::AtPrinter(printer, sheet, Turn::Failed);
        write(&mut self.account, &mut self.books, mine, entry);
        Ok(())
    }
}
