//! The calls on a queue or on the whole spool: sessions are admitted, printers are started, the spool is closed, and its history
//! is put away.

ghost use Rattle.std.specs.Prelude.{◌≡◌, [], IfOk, map};
ghost use Rattle.spool_calls.specs.Calls.{IsRight, Admits, Starts, Closes, Rotates};
ghost use Rattle.spool_core.specs.Halves.{FindsQueue, FindsStart, StartsQueue};
ghost use Rattle.spool_core.specs.Places.{Takes};
ghost use Rattle.spool_calls.specs.Printers.{started, stopped_among, with_none};
ghost use Rattle.spool_calls.specs.Stocks.{all_end, CanEnd, EndsTo, is_out, IsStocked, listed, stock, stock_after};

use crate::core_state::Core;
use claims::Table;
use held_jobs::{Job, Phase};
use lpd_values::Refusal;
use ordered_safety::PAGES;
use page_pool::Pool;
use queues::Book;
use spool_calls::Printer;

/// What a start finds, before it is carried out.
#[derive(Clone, Copy, Debug, PartialEq, Eq)]
pub struct Started {
    /// The number of the queue.
    pub queue: u32,
    /// How many of its printers are stopped.
    pub stopped: u32,
}

/// Whether a page of a job is lent, or at a printer.
fn has_page_out(job: &Job) -> bool
    ensures { result ≡ is_out job.now }
{
    job.is_lent() || job.handed() != job.back()
}

/// Whether a number is one of these.
fn is_listed(numbers: &[u64], number: u64) -> bool
    ensures { result ≡ listed numbers.now number }
{
    numbers.iter().any(|k| *k == number)
}

/// Ends the job at a place, unless it has ended: its pages go back to the pool, and where no page of it is out it goes.
fn end_job(book: &mut Book, pool: &mut Pool, table: &mut Table, i: usize)
    requires { CanEnd (stock book.old pool.old table.old) i }
    ensures { stock book.new pool.new table.new
        ≡ stock_after (stock book.old pool.old table.old) i }
{
    let job = book.job(i);
    if job.phase() == Phase::Ended {
        return;
    }
    let queue = job.queue() as usize;
    let stays = has_page_out(job);
    let pages = book.drain(i, pool);
    if !stays {
        table.close_row(i);
        book.remove(i);
        return;
    }
    // A page of it is out: its row stays until that is back, with no need left, so that what is free is told truly.
    table.need_ends(i, PAGES);
    table.need_ends(i, queue);
    table.give_back(i, PAGES, pages as u32);
}

/// Ends all jobs.
fn end_all(book: &mut Book, pool: &mut Pool, table: &mut Table)
    requires { IsStocked (stock book.old pool.old table.old) }
    ensures { EndsTo all_end (stock book.old pool.old table.old)
        (stock book.new pool.new table.new) }
{
    // From the last one on: where a job goes, the places of those before it stay.
    let mut i = book.len();
    while i > 0 {
        i -= 1;
        end_job(book, pool, table, i);
    }
}

/// Ends the jobs of these numbers.
pub(crate) fn end_listed(book: &mut Book, pool: &mut Pool, table: &mut Table, numbers: &[u64])
    requires { IsStocked (stock book.old pool.old table.old) }
    ensures { EndsTo (listed numbers.now) (stock book.old pool.old table.old)
        (stock book.new pool.new table.new) }
{
    let mut i = book.len();
    while i > 0 {
        i -= 1;
        if is_listed(numbers, book.job(i).number()) {
            end_job(book, pool, table, i);
        }
    }
}

/// How many printers are stopped.
pub(crate) fn count_stopped(printers: &[Printer]) -> usize
    ensures { result ≡ stopped_among printers.now }
{
    printers.iter().filter(|printer| printer.stopped).count()
}

/// Forgets which job each printer began last.
pub(crate) fn forget_jobs(printers: &mut [Printer])
    ensures { printers.new ≡ map with_none printers.old }
{
    for printer in printers.iter_mut() {
        printer.began = None;
    }
}

/// Starts the printers of a queue.
fn start_printers(printers: &mut [Printer], queue: u32)
    ensures { printers.new ≡ map (started queue) printers.old }
{
    for printer in printers.iter_mut() {
        if printer.queue == queue {
            printer.stopped = false;
        }
    }
}

impl Core {
    /// Whether a session may send jobs to the queue of a name.
    ///
    /// Closed once the spool is closed; UnknownQueue where no queue has this name.
    pub fn admits(&self, queue: &[u8]) -> Result<(), Refusal>
        ensures { IsRight self.now (λ d b h. Admits d b h self.now queue.now result) }
    {
        if self.closed {
            return Err(Refusal::Closed);
        }
        match self.config.queue_named(queue) {
            Some(_) => Ok(()),
            None => Err(Refusal::UnknownQueue),
        }
    }

    /// The number of the queue of a name, of which requests are taken.
    ///
    /// Closed once the spool is closed; UnknownQueue where no queue has this name.
    pub(crate) fn open_queue(&self, queue: &[u8]) -> Result<u32, Refusal>
        ensures answer { IsRight self.now (λ d b h. FindsQueue d b h self.now queue.now result) }
        ensures takes { IfOk result (λ q. Takes self.now q) }
    {
        if self.closed {
            return Err(Refusal::Closed);
        }
        let Some(number) = self.config.queue_named(queue) else {
            return Err(Refusal::UnknownQueue);
        };
        Ok(number)
    }

    /// The queue of a name, and how many of its printers a start would start.
    ///
    /// Closed once the spool is closed; UnknownQueue where no queue has this name.
    pub fn start_of(&self, queue: &[u8]) -> Result<Started, Refusal>
        ensures answer { IsRight self.now (λ d b h. FindsStart d b h self.now queue.now result) }
        ensures takes { IfOk result (λ found. Takes self.now found.queue) }
    {
        let number = self.open_queue(queue)?;
        Ok(Started {
            queue: number,
            stopped: self.stopped_in(number),
        })
    }

    /// Starts the stopped printers of the queue of a number that `start_of` answered. Where none is stopped nothing changes.
    pub fn start_printers(&mut self, queue: u32)
        requires { Takes self.old queue }
        ensures config { self.new.config ≡ self.old.config }
        ensures answer { IsRight self.old (λ d b h. StartsQueue d b h self.old queue self.new) }
    {
        start_printers(self.printers.as_mut_slice(), queue);
    }

    /// Starts the stopped printers of a queue. Where none is stopped nothing changes.
    ///
    /// Closed once the spool is closed; UnknownQueue where no queue has this name.
    pub fn start(&mut self, queue: &[u8]) -> Result<(), Refusal>
        ensures config { self.new.config ≡ self.old.config }
        ensures answer { IsRight self.old (λ d b h.
            Starts d b h self.old queue.now self.new result) }
    {
        // How many are stopped isn't asked: nobody is told.
        let number = self.open_queue(queue)?;
        self.start_printers(number);
        Ok(())
    }

    /// Closes the spool: each job ends, and nothing is accepted or handed out from then on. A page that is out may still come
    /// back.
    ///
    /// A second close changes nothing.
    pub fn close(&mut self)
        ensures config { self.new.config ≡ self.old.config }
        ensures answer { IsRight self.old (λ d b h. Closes d b h self.old self.new) }
    {
        if self.closed {
            return;
        }
        end_all(&mut self.book, &mut self.pool, &mut self.table);
        self.closed = true;
    }

    /// Puts the history away, where no job is held: the next one begins from the base after it.
    ///
    /// What is counted of the account is then an entry for each stopped printer, because a start may still come for it.
    pub fn rotated(&mut self)
        requires { self.old.book.jobs ≡ [] }
        ensures config { self.new.config ≡ self.old.config }
        ensures answer { IsRight self.old (λ d b h. Rotates d b h self.old self.new) }
    {
        self.reserved = count_stopped(self.printers.as_slice()) as u64;
        forget_jobs(self.printers.as_mut_slice());
    }
}
