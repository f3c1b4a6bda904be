//! The calls on a job that is being received.

ghost use Rattle.std.specs.Prelude.{◌≡◌, ◌↔◌, ◌+◌, ◌<◌, ◌≤◌, ◌-◌, None, Err, IsTrue, IsSome, IfErr, IfOk, IfSome, length};
ghost use Rattle.control_file.specs.View.{contents};
ghost use Rattle.counts.specs.Amounts.{amount};
ghost use Rattle.claims.specs.Claims.{row_at};
ghost use Rattle.claims.specs.Changes.{given_back, need_ended};
ghost use Rattle.config_values.specs.Config.{limit_of};
ghost use Rattle.held_jobs.specs.declared.phase.Phase.TheVariants as phase;
ghost use Rattle.held_jobs.specs.Books.{IsIdle, job_at};
ghost use Rattle.held_jobs.specs.Jobs.{last_size};
ghost use Rattle.held_jobs.specs.Moves.{MayAsk, Awaits, CanEnd, received_in, unnamed_of};
ghost use Rattle.spool_calls.specs.Calls.{IsRight, Asks, Begins, Puts, PutsAs, Ends, EndsFile, Controls, Aborts, before};
ghost use Rattle.spool_history.specs.Refusals.{RefusesControl};
ghost use Rattle.spool_core.specs.Places.{LacksControl};
ghost use Rattle.spool_history.specs.Legal.{pages_for};
ghost use Rattle.spool_core.specs.Tickets.{IsBlank};
ghost use Rattle.spool_calls.specs.Tickets.{MayAbort, count_of};

use crate::core_state::Core;
use claims::Table;
use config_values::Config;
use control_file::Control;
use held_jobs::{Job, Phase};
use lpd_values::{FileName, Refusal};
use ordered_safety::{PAGES, safe_after_page};
use page_chain::ChainError;
use page_pool::{FilledPage, PageTicket, Pool};
use queues::Book;
use spool_calls::{Asked, Receipt, ReturnedControl, ReturnedPage, ReturnedTicket};

/// A page of a job, by where it stands.
#[derive(Clone, Copy, Debug)]
pub struct FilePage {
    /// The number of its file in the job, from 0.
    pub file: u64,
    /// Its number in that file, from 0.
    pub number: u64,
}

/// A data file that ended.
#[derive(Clone, Copy, Debug)]
pub struct EndedFile {
    /// Its number in the job, from 0.
    pub file: u64,
    /// Whether the job is whole by its end.
    pub receipt: Receipt,
}

/// Whether a job is being received.
pub(crate) fn is_receiving(job: &Job) -> bool
    ensures { IsTrue result ↔ (job.now.phase ≡ phase.Receiving) }
{
    matches!(job.phase(), Phase::Receiving)
}

/// Whether a job is being received, a file of it is open, and no page is lent to it.
fn may_ask(book: &Book, i: usize) -> bool
    requires { i < length book.now.jobs }
    ensures { IsTrue result ↔ MayAsk (job_at book.now i) }
{
    let job = book.job(i);
    job.phase() == Phase::Receiving && book.is_open(i) && !job.is_lent()
}

/// How many pages of so many octets a file of this length takes.
fn pages_for(page_size: u32, count: u64) -> u128
    requires { 0 < page_size }
    ensures { result ≡ pages_for page_size count }
{
    (u128::from(count) + u128::from(page_size - 1)) / u128::from(page_size)
}

/// Whether a job would hold more than its queue allows, with the pages of a file of this length.
fn is_over(config: &Config, job: &Job, count: u64) -> bool
    ensures { IsTrue result ↔ (limit_of config.now job.now.queue
        < job.now.granted + pages_for config.now.page_size count) }
{
    let pages = pages_for(config.page_size(), count);
    u128::from(config.limit_of(job.queue())) < u128::from(job.granted()) + pages
}

/// Whether the lent page, with so many octets on it, is the next one of the job's open file.
fn awaits(book: &Book, i: usize, len: u64, page_size: u64) -> bool
    requires { i < length book.now.jobs }
    ensures { IsTrue result ↔ Awaits (job_at book.now i) len page_size }
{
    let job = book.job(i);
    if job.phase() != Phase::Receiving || !job.is_lent() || !book.is_open(i) {
        return false;
    }
    let left = job.left();
    0 < left && len == page_size.min(left)
}

/// Whether the job's open file has all its octets, and no page is lent.
fn can_end(book: &Book, i: usize) -> bool
    requires { i < length book.now.jobs }
    ensures { IsTrue result ↔ CanEnd (job_at book.now i) }
{
    let job = book.job(i);
    job.phase() == Phase::Receiving && !job.is_lent() && book.is_open(i) && job.left() == 0
}

/// Whether a job may be aborted with this page.
fn may_abort(job: &Job, ticket: &Option<PageTicket>, page_size: usize) -> bool
    ensures { IsTrue result ↔ MayAbort job.now page_size ticket.now }
{
    let lent = job.is_lent();
    if job.phase() == Phase::Received || (job.phase() == Phase::Ended && !lent) {
        return false;
    }
    match ticket {
        None => !lent,
        Some(page) => lent && page.page_size() == page_size,
    }
}

/// The page behind those of a job's last file that have come.
pub(crate) fn next_page(job: &Job) -> FilePage
    requires { 0 < length job.now.files }
    ensures { (result.file ≡ length job.now.files - 1)
        × (result.number ≡ (last_size job.now.files).pages) }
{
    let files = job.files();
    let last = files.len() - 1;
    FilePage {
        file: last as u64,
        number: files[last].pages,
    }
}

/// Puts a lent page that came back into the pool, if there is one.
fn take_ticket(pool: &mut Pool, ticket: Option<PageTicket>)
    requires size { IfSome ticket (λ t. t.page_size ≡ pool.old.page_size) }
    requires room { pool.old.free + count_of ticket ≤ pool.old.pages }
    ensures { pool.new ≡ record pool.old { free = pool.old.free + count_of ticket } }
{
    if let Some(page) = ticket {
        pool.put_back(page);
    }
}

/// The job at a place is received: the pages of files that it doesn't print go back, and it needs no more.
fn receive(book: &mut Book, pool: &mut Pool, table: &mut Table, i: usize)
    requires here { i < length book.old.jobs }
    requires idle { IsIdle (job_at book.old i).chain }
    requires size { pool.old.page_size ≡ book.old.page_size }
    requires control { IsSome (job_at book.old i).facts.control }
    requires room { pool.old.free + unnamed_of (job_at book.old i) ≤ pool.old.pages }
    requires few { unnamed_of (job_at book.old i) ≤ 65536 }
    requires row { i < length table.old.rows }
    requires kind { 0 < length table.old.capacity }
    requires held { unnamed_of (job_at book.old i) ≤ amount (row_at table.old.rows i).held PAGES }
    ensures book { book.new ≡ received_in book.old i }
    ensures pool { pool.new
        ≡ record pool.old { free = pool.old.free + unnamed_of (job_at book.old i) } }
    ensures table { table.new
        ≡ given_back (need_ended table.old i PAGES) i PAGES (unnamed_of (job_at book.old i)) }
{
    let before = pool.free();
    book.receive(i, pool);
    table.need_ends(i, PAGES);
    table.give_back(i, PAGES, (pool.free() - before) as u32);
}

impl Core {
    /// Lends a page to a job that is being received, where one is free and the state stays safe.
    ///
    /// NotOpen where the job isn't being received, no file of it is open or a page is lent to it already; OverClaim where it
    /// holds as many pages as its queue allows.
    pub fn ask(&mut self, job: u64) -> Result<Asked, Refusal>
        ensures config { self.new.config ≡ self.old.config }
        ensures page { IfOk result (IsBlank self.old.config.page_size) }
        ensures answer { IsRight self.old (λ d b h. Asks d b h self.old job self.new result) }
    {
        let Some(i) = self.book.find(job) else {
            return Err(Refusal::NotOpen);
        };
        if !may_ask(&self.book, i) {
            return Err(Refusal::NotOpen);
        }
        let found = self.book.job(i);
        if self.config.limit_of(found.queue()) <= found.granted() {
            return Err(Refusal::OverClaim);
        }
        if self.table.free().get(PAGES) == 0 {
            return Ok(Asked::Later);
        }
        if !safe_after_page(&mut self.scratch, &self.table, i).safe {
            return Ok(Asked::Later);
        }
        self.table.grant(i, PAGES);
        self.book.lend(i);
        let Some(ticket) = self.pool.take() else {
            unreachable!()
        };
        Ok(Asked::Page(ticket))
    }

    /// Begins a data file of a job, of so many octets.
    ///
    /// NotOpen where the job isn't being received; FileOpen while a file of it is open; NameTaken where it has a file of this
    /// name; FilesFull where it has as many files as it may have; OverClaim where it would hold more pages than its queue
    /// allows.
    pub fn begin_file(&mut self, job: u64, name: FileName, count: u64) -> Result<(), Refusal>
        requires { 0 < count }
        ensures config { self.new.config ≡ self.old.config }
        ensures answer { IsRight self.old (λ d b h.
            Begins d b h self.old job name count self.new result) }
    {
        let Some(i) = self.book.find(job) else {
            return Err(Refusal::NotOpen);
        };
        if !is_receiving(self.book.job(i)) {
            return Err(Refusal::NotOpen);
        }
        if self.book.is_open(i) {
            return Err(Refusal::FileOpen);
        }
        match self.book.refusal(i, &name) {
            Some(ChainError::NameTaken) => return Err(Refusal::NameTaken),
            Some(ChainError::FilesFull) => return Err(Refusal::FilesFull),
            None => {}
        }
        if is_over(&self.config, self.book.job(i), count) {
            return Err(Refusal::OverClaim);
        }
        self.book.begin(i, name, count);
        Ok(())
    }

    /// Takes the page that was lent to a job, which has the spool's size, as the next one of its open file, and says of which file
    /// which page that is.
    ///
    /// Refused, with the page, where the job isn't being received, no file of it is open, no page is lent to it, or the page
    /// isn't the one that the file awaits: full, or with its last octets.
    pub fn put_sized(&mut self, job: u64, page: FilledPage) -> Result<FilePage, ReturnedPage>
        requires { page.page_size ≡ self.old.config.page_size }
        ensures config { self.new.config ≡ self.old.config }
        ensures back { IfErr result (λ e. e.page ≡ page) }
        ensures put { IfOk result (λ r. IsRight self.old (λ d b h.
            PutsAs d b h self.old job page self.new r.file r.number)) }
        ensures refused { IfErr result (λ e. IsRight self.old (λ d b h.
            Puts d b h self.old job page self.new (Err e))) }
    {
        let page_size = u64::from(self.config.page_size());
        let Some(i) = self.book.find(job) else {
            return Err(ReturnedPage { page });
        };
        if !awaits(&self.book, i, page.len() as u64, page_size) {
            return Err(ReturnedPage { page });
        }
        let next = next_page(self.book.job(i));
        self.book.put(i, page);
        Ok(next)
    }

    /// Takes the page that was lent to a job as the next one of its open file, and says of which file which page that is.
    ///
    /// Refused, with the page, where the job isn't being received, no file of it is open, no page is lent to it, or the page
    /// isn't the one that the file awaits: full, or with its last octets.
    pub fn put_next(&mut self, job: u64, page: FilledPage) -> Result<FilePage, ReturnedPage>
        ensures config { self.new.config ≡ self.old.config }
        ensures back { IfErr result (λ e. e.page ≡ page) }
        ensures put { IfOk result (λ r. IsRight self.old (λ d b h.
            PutsAs d b h self.old job page self.new r.file r.number)) }
        ensures refused { IfErr result (λ e. IsRight self.old (λ d b h.
            Puts d b h self.old job page self.new (Err e))) }
    {
        if page.page_size() != self.config.page_size() as usize {
            return Err(ReturnedPage { page });
        }
        self.put_sized(job, page)
    }

    /// Takes the page that was lent to a job as the next one of its open file.
    ///
    /// Refused, with the page, as `put_next` refuses it.
    pub fn put(&mut self, job: u64, page: FilledPage) -> Result<(), ReturnedPage>
        ensures config { self.new.config ≡ self.old.config }
        ensures back { IfErr result (λ e. e.page ≡ page) }
        ensures answer { IsRight self.old (λ d b h. Puts d b h self.old job page self.new result) }
    {
        self.put_next(job, page)?;
        Ok(())
    }

    /// Ends the open file of a job, and says which one that is.
    ///
    /// NotOpen where the job isn't being received, no file of it is open, a page is lent to it, or octets are missing.
    pub fn end_last(&mut self, job: u64) -> Result<EndedFile, Refusal>
        ensures config { self.new.config ≡ self.old.config }
        ensures ended { IfOk result (λ r. IsRight self.old (λ d b h.
            EndsFile d b h self.old job self.new r.receipt r.file)) }
        ensures refused { IfErr result (λ n. IsRight self.old (λ d b h.
            Ends d b h self.old job self.new (Err n))) }
    {
        let Some(i) = self.book.find(job) else {
            return Err(Refusal::NotOpen);
        };
        if !can_end(&self.book, i) {
            return Err(Refusal::NotOpen);
        }
        let FilePage { file, .. } = next_page(self.book.job(i));
        self.book.end_file(i);
        if !self.book.job(i).has_prints() {
            let receipt = Receipt::Stored;
            return Ok(EndedFile { file, receipt });
        }
        receive(&mut self.book, &mut self.pool, &mut self.table, i);
        let receipt = Receipt::Received;
        Ok(EndedFile { file, receipt })
    }

    /// Ends the open file of a job.
    ///
    /// Refused as `end_last` refuses it.
    pub fn end_file(&mut self, job: u64) -> Result<Receipt, Refusal>
        ensures config { self.new.config ≡ self.old.config }
        ensures answer { IsRight self.old (λ d b h. Ends d b h self.old job self.new result) }
    {
        let ended = self.end_last(job)?;
        Ok(ended.receipt)
    }

    /// The place of a job that is being received and has no control file.
    ///
    /// NotOpen where the job isn't being received; ControlTwice where it has one.
    pub(crate) fn lacks_control(&self, job: u64) -> Result<usize, Refusal>
        ensures lacks { IfOk result (LacksControl self.now job) }
        ensures refused { IfErr result (λ n. IsRight self.now (λ d b h.
            RefusesControl (before d b h self.now) job n)) }
    {
        let Some(i) = self.book.find(job) else {
            return Err(Refusal::NotOpen);
        };
        let found = self.book.job(i);
        if !is_receiving(found) {
            return Err(Refusal::NotOpen);
        }
        if found.control().is_some() {
            return Err(Refusal::ControlTwice);
        }
        Ok(i)
    }

    /// Takes the control file of a job.
    ///
    /// Refused, with the control file: NotOpen where the job isn't being received; ControlTwice where it has one.
    pub fn control(&mut self, job: u64, control: Control) -> Result<Receipt, ReturnedControl>
        ensures config { self.new.config ≡ self.old.config }
        ensures back { IfErr result (λ e. e.control ≡ control) }
        ensures answer { IsRight self.old (λ d b h.
            Controls d b h self.old job (contents control) self.new result) }
    {
        let i = match self.lacks_control(job) {
            Ok(i) => i,
            Err(refusal) => return Err(ReturnedControl { control, refusal }),
        };
        self.book.set_control(i, control);
        if self.book.is_open(i) {
            return Ok(Receipt::Stored);
        }
        if !self.book.job(i).has_prints() {
            return Ok(Receipt::Stored);
        }
        receive(&mut self.book, &mut self.pool, &mut self.table, i);
        Ok(Receipt::Received)
    }

    /// Ends a job that is being received, or takes back the page that was lent to one that has ended. All its pages go back to
    /// the pool.
    ///
    /// Refused, with the page, where the job is neither, or where a page is given though none is lent, none though one is, or
    /// one of another size.
    pub fn abort(&mut self, job: u64, ticket: Option<PageTicket>) -> Result<(), ReturnedTicket>
        ensures config { self.new.config ≡ self.old.config }
        ensures back { IfErr result (λ e. e.ticket ≡ ticket) }
        ensures answer { IsRight self.old (λ d b h.
            Aborts d b h self.old job ticket self.new result) }
    {
        let page_size = self.config.page_size() as usize;
        let Some(i) = self.book.find(job) else {
            return Err(ReturnedTicket { ticket });
        };
        if !may_abort(self.book.job(i), &ticket, page_size) {
            return Err(ReturnedTicket { ticket });
        }
        self.book.drain(i, &mut self.pool);
        take_ticket(&mut self.pool, ticket);
        self.table.close_row(i);
        self.book.remove(i);
        Ok(())
    }
}
