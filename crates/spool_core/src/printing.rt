//! The calls of a printer.

ghost use Rattle.std.specs.Prelude.{◌≡◌, ◌↔◌, ◌+◌, ◌-◌, ◌<◌, ◌≤◌, ◌==◌, IsTrue, length, remove, if◌then◌else◌};
ghost use Rattle.counts.specs.Amounts.{amount};
ghost use Rattle.claims.specs.Claims.{row_at};
ghost use Rattle.claims.specs.Changes.{closed, granted};
ghost use Rattle.config_values.specs.Config.{IsPrinter};
ghost use Rattle.held_jobs.specs.Books.{job_at};
ghost use Rattle.spool_calls.specs.Calls.{IsRight, Hands, Prints, Fails};
ghost use Rattle.spool_calls.specs.declared.answers.Next.TheVariants as next;
ghost use Rattle.spool_core.specs.Due.{IsTurn};
ghost use Rattle.account.specs.declared.entry.Progress.TheVariants as progress;
ghost use Rattle.spool_calls.specs.Printers.{said_of};
ghost use Rattle.held_jobs.specs.Moves.{pages_of};

use crate::core_state::Core;
use crate::due::Due;
use crate::printers::is_out;
use account::Progress;
use claims::Table;
use held_jobs::Phase;
use ordered_safety::PAGES;
use page_chain::Place;
use page_pool::Pool;
use queues::Book;
use spool_calls::{Foreign, HandedPage, Next, Printer};

/// Gives a job a printer of its queue with its first page.
fn lend_printer(table: &mut Table, row: usize, kind: usize, handed: u64)
    requires here { row < length table.old.rows }
    requires kind { kind < length table.old.capacity }
    requires free { handed ≡ 0 → 0 < amount table.old.free kind }
    requires needed { handed ≡ 0 → 0 < amount (row_at table.old.rows row).need kind }
    ensures { table.new ≡ (if handed == 0 then granted table.old row kind else table.old) }
{
    if handed == 0 {
        table.grant(row, kind);
    }
}

/// What is said of a job when a page of it was printed.
fn progress(book: &Book, i: usize) -> Progress
    requires { i < length book.now.jobs }
    ensures { result ≡ said_of (job_at book.now i) }
{
    if book.job(i).phase() == Phase::Ended {
        return Progress::Ended;
    }
    match book.next_place(i) {
        Some(_) => Progress::Going,
        None => Progress::Done,
    }
}

/// Whether more of the job is to be printed.
fn goes_on(said: Progress) -> bool
    ensures { IsTrue result ↔ (said ≡ progress.Going) }
{
    matches!(said, Progress::Going)
}

/// Lets a job go with the page of it that came back: all its pages go to the pool.
fn let_go(book: &mut Book, pool: &mut Pool, table: &mut Table, i: usize, page: HandedPage)
    requires here { i < length book.old.jobs }
    requires row { i < length table.old.rows }
    requires size { pool.old.page_size ≡ book.old.page_size }
    requires page { page.page.page_size ≡ pool.old.page_size }
    requires room { pool.old.free + pages_of (job_at book.old i) + 1 ≤ pool.old.pages }
    ensures book { book.new ≡ record book.old {
      jobs = remove book.old.jobs i;
      stored = book.old.stored - pages_of (job_at book.old i);
    } }
    ensures pool { pool.new
        ≡ record pool.old { free = pool.old.free + pages_of (job_at book.old i) + 1 } }
    ensures table { table.new ≡ closed table.old i }
{
    book.drain(i, pool);
    pool.put_back(page.into_ticket());
    table.close_row(i);
    book.remove(i);
}

impl Core {
    /// Hands a printer the place of a job that is due for it.
    fn hand_out(&mut self, printer: u32, i: usize, place: Place) -> HandedPage
        requires printer { IsPrinter self.old.config printer }
        requires due { IsTurn self.old printer i place }
        ensures config { self.new.config ≡ self.old.config }
        ensures answer { IsRight self.old (λ d b h.
            Hands d b h self.old printer self.new (next.Handed result)) }
    {
        let p = printer as usize - 1;
        let at = self.printers[p];
        let found = self.book.job(i);
        let job = found.number();
        let queue = found.queue();
        let handed = found.handed();
        // A claim has a printer beside its pages: a job holds one of its queue's from its first page on.
        lend_printer(&mut self.table, i, queue as usize, handed);
        let page = HandedPage {
            job,
            place: handed,
            file: place.file as u64,
            number: place.number as u64,
            page: self.book.hand(i),
        };
        self.printers[p] = Printer {
            queue: at.queue,
            out: Some(page.sheet()),
            began: Some(job),
            stopped: false,
        };
        page
    }

    /// Gives a printer its next page: the next place of the job that it began, while that hasn't ended, or else the first of
    /// the first job of its queue that is ready.
    ///
    /// Closed where the spool is closed; Stopped where a page failed at the printer and its queue wasn't started since; Busy
    /// while a page is out at it; Nothing where no job is next for it, or where all places of that job were handed out.
    pub fn next(&mut self, printer: u32) -> Next
        requires { IsPrinter self.old.config printer }
        ensures config { self.new.config ≡ self.old.config }
        ensures answer { IsRight self.old (λ d b h. Hands d b h self.old printer self.new result) }
    {
        match self.due(printer) {
            Due::Closed => Next::Closed,
            Due::Stopped => Next::Stopped,
            Due::Busy => Next::Busy,
            Due::Nothing => Next::Nothing,
            Due::Page(i, place) => Next::Handed(self.hand_out(printer, i, place)),
        }
    }

    /// Takes back the page that is out at a printer, printed, and says how far its job is.
    ///
    /// Refused, with the page, where it isn't the one that is out at the printer.
    pub fn printed(&mut self, printer: u32, page: HandedPage) -> Result<Progress, Foreign>
        requires { IsPrinter self.old.config printer }
        ensures config { self.new.config ≡ self.old.config }
        ensures answer { IsRight self.old (λ d b h.
            Prints d b h self.old printer page self.new result) }
    {
        let p = printer as usize - 1;
        let at = self.printers[p];
        if !is_out(&at.out, &page, self.config.page_size() as usize) {
            return Err(Foreign { page });
        }
        let Some(i) = self.book.find(page.job) else {
            unreachable!()
        };
        self.printers[p].out = None;
        let said = progress(&self.book, i);
        if !goes_on(said) {
            let_go(&mut self.book, &mut self.pool, &mut self.table, i, page);
            return Ok(said);
        }
        // A later place prints the same page again: it goes back to the job, which holds it on.
        if self.book.comes_again(i) {
            self.book.come_again(i, page.into_page());
            return Ok(said);
        }
        self.pool.put_back(page.into_ticket());
        self.table.give_back(i, PAGES, 1);
        self.book.come_back(i);
        Ok(said)
    }

    /// Takes back the page that is out at a printer, which failed: its job ends, and the printer stops.
    ///
    /// Refused, with the page, where it isn't the one that is out at the printer.
    pub fn failed(&mut self, printer: u32, page: HandedPage) -> Result<(), Foreign>
        requires { IsPrinter self.old.config printer }
        ensures config { self.new.config ≡ self.old.config }
        ensures answer { IsRight self.old (λ d b h.
            Fails d b h self.old printer page self.new result) }
    {
        let p = printer as usize - 1;
        let at = self.printers[p];
        if !is_out(&at.out, &page, self.config.page_size() as usize) {
            return Err(Foreign { page });
        }
        let Some(i) = self.book.find(page.job) else {
            unreachable!()
        };
        self.printers[p] = Printer {
            queue: at.queue,
            out: None,
            // The job has ended, so a start has the printer go on with the next one.
            began: at.began,
            stopped: true,
        };
        let_go(&mut self.book, &mut self.pool, &mut self.table, i, page);
        Ok(())
    }
}
