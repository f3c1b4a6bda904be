//! What a core tells of itself. No reader takes memory, and none changes anything.

ghost use Rattle.std.specs.Prelude.{◌≡◌, ◌==◌, ◌↔◌, ◌+◌, ◌-◌, IsTrue, List, MatchOption, count_by, length, slice_index_or};
ghost use Rattle.account.specs.declared.entry.Outline.{Outline};
ghost use Rattle.config_values.specs.Config.{IsPrinter, IsQueue, queue_named};
ghost use Rattle.spool_history.specs.Base.{Base};
ghost use Rattle.spool_history.specs.Events.{Event};
ghost use Rattle.held_jobs.specs.Jobs.{HeldJob};
ghost use Rattle.spool_history.specs.Now.{Job, free_pages};
ghost use Rattle.spool_history.specs.Legal.{HasJob, MayOpen};
ghost use Rattle.spool_history.specs.Next.{printer_at};
ghost use Rattle.spool_history.specs.Refusals.{MayControl, RefusesControl, RefusesJob};
ghost use Rattle.spool_calls.specs.Looks.{What};
ghost use Rattle.spool_calls.specs.Looks.Detail.{Outlines};
ghost use Rattle.spool_calls.specs.Kept.{Leaves, kept_out};
ghost use Rattle.spool_calls.specs.Calls.{IsRight, before};
ghost use Rattle.spool_calls.specs.Readers.{ArePlaced, HasOpenFile, IsOpenFile, placed, stopped_for};
ghost use Rattle.spool_core.specs.Wanted.{GoesOn, IsGoing};
ghost use Rattle.spool_calls.specs.Printers.{no_kept, out_among};
ghost use Rattle.spool_calls.specs.Stocks.{lent_among};

use crate::core_state::Core;
use crate::printers::count_stopped_in;
use crate::receiving::{FilePage, is_receiving, next_page};
use account::Sheet;
use config_values::Config;
use held_jobs::Phase;
use lpd_values::Refusal;
use queues::Book;
use spool_calls::Printer;
use spool_snapshot::Pages;

/// What a spool has room for.
#[derive(Clone, Copy, Debug, PartialEq, Eq)]
pub struct Vacancy {
    /// How many jobs are held.
    pub held: usize,
    /// How many more the table has room for.
    pub rows: usize,
    /// How many pages are free.
    pub pages: usize,
    /// How many entries more the account may have counted. A job of a queue is accepted where its reserve and one more are no
    /// more than these.
    pub entries: u64,
}

/// How many of these printers have a page out.
fn count_out(printers: &[Printer]) -> usize
    ensures { result ≡ out_among printers.now }
{
    printers
        .iter()
        .filter(|printer| printer.out.is_some())
        .count()
}

/// To how many of the held jobs a page is lent.
fn count_lent(book: &Book) -> usize
    ensures { result ≡ lent_among book.now.jobs }
{
    let mut lent = 0;
    for i in 0..book.len() {
        if book.job(i).is_lent() {
            lent += 1;
        }
    }
    lent
}

/// How many of the held jobs are in a queue.
fn count_in(book: &Book, queue: u32) -> usize
    ensures { result ≡ count_by (λ (j : HeldJob). j.facts.queue == queue) book.now.jobs }
{
    let mut jobs = 0;
    for i in 0..book.len() {
        if book.job(i).queue() == queue {
            jobs += 1;
        }
    }
    jobs
}

/// Whether a job of this number is there that hasn't ended.
fn is_going(book: &Book, number: u64) -> bool
    ensures { IsGoing book.now number result }
{
    let Some(i) = book.find(number) else {
        return false;
    };
    book.job(i).phase() != Phase::Ended
}

impl Core {
    /// How many jobs are held.
    pub fn held(&self) -> usize
        ensures value { result ≡ length self.now.book.jobs }
        ensures held { IsRight self.now (λ d b h. result ≡ length (before d b h self.now).jobs) }
        ensures reached { (b : Base) × (h : List (Event Outline)) × Leaves Outlines b h self.now }
    {
        self.book.len()
    }

    /// Whether the spool is closed.
    pub fn is_closed(&self) -> bool
        ensures value { result ≡ self.now.closed }
        ensures closed { IsRight self.now (λ d b h. result ≡ (before d b h self.now).closed) }
    {
        self.closed
    }

    /// What the spool is made for.
    pub fn config(&self) -> &Config
        ensures { result.now ≡ self.now.config }
    {
        &self.config
    }

    /// How many entries of the account are counted for the jobs that were accepted and for the starts that may come.
    pub fn counted_reserve(&self) -> u64
        ensures value { result ≡ self.now.reserved }
        ensures reserved { IsRight self.now (λ d b h. result ≡ (before d b h self.now).reserved) }
    {
        self.reserved
    }

    /// How many pages are free.
    pub fn free(&self) -> usize
        ensures value { result ≡ self.now.pool.free }
        ensures free { IsRight self.now (λ d b h. result ≡ free_pages (before d b h self.now)) }
    {
        self.pool.free()
    }

    /// What there is room for, at this moment.
    pub fn vacancy(&self) -> Vacancy
        ensures held { IsRight self.now (λ d b h.
            result.held ≡ length (before d b h self.now).jobs) }
        ensures rows { IsRight self.now (λ d b h.
            result.rows ≡ self.now.config.max_jobs - length (before d b h self.now).jobs) }
        ensures pages { IsRight self.now (λ d b h.
            result.pages ≡ free_pages (before d b h self.now)) }
        ensures entries { IsRight self.now (λ d b h.
            result.entries ≡ self.now.config.account - (before d b h self.now).reserved) }
    {
        let held = self.held();
        Vacancy {
            held,
            rows: (self.config.max_jobs() as usize).saturating_sub(held),
            pages: self.free(),
            entries: self.config.account().saturating_sub(self.counted_reserve()),
        }
    }

    /// Whether a job is held and hasn't ended.
    pub fn is_wanted(&self, job: u64) -> bool
        ensures { IsRight self.now (λ d b h.
            IsTrue result ↔ HasJob (before d b h self.now).jobs job GoesOn) }
    {
        is_going(&self.book, job)
    }

    /// How many jobs of a queue are held.
    pub fn held_in(&self, queue: u32) -> usize
        ensures { IsRight self.now (λ d b h. result
            ≡ count_by (λ (v : Job (What d)). v.queue == queue) (before d b h self.now).jobs) }
    {
        count_in(&self.book, queue)
    }

    /// Whether a printer is stopped.
    pub fn is_stopped(&self, printer: u32) -> bool
        requires { IsPrinter self.now.config printer }
        ensures { IsRight self.now (λ d b h.
            result ≡ (printer_at (before d b h self.now) printer).stopped) }
    {
        let at = self.printers[printer as usize - 1];
        at.stopped
    }

    /// How many printers of a queue are stopped.
    pub fn stopped_in(&self, queue: u32) -> u32
        ensures { IsRight self.now (λ d b h. result ≡ stopped_for d b h self.now queue) }
    {
        count_stopped_in(self.printers.as_slice(), queue) as u32
    }

    /// The page that is out at a printer.
    pub fn out_at(&self, printer: u32) -> Option<Sheet>
        requires { IsPrinter self.now.config printer }
        ensures value { result ≡ (slice_index_or self.now.printers (printer - 1) no_kept).out }
        ensures out { IsRight self.now (λ d b h.
            result ≡ kept_out d (printer_at (before d b h self.now) printer).out) }
    {
        let at = self.printers[printer as usize - 1];
        at.out
    }

    /// The number of the queue of a name.
    pub fn queue_number(&self, name: &[u8]) -> Option<u32>
        ensures { MatchOption result (queue_named self.now.config name.now ≡ 0)
            (λ q. (queue_named self.now.config name.now ≡ q) × IsQueue self.now.config q) }
    {
        self.config.queue_named(name)
    }

    /// Why a job for the queue of this name would be refused, but for want of memory.
    ///
    /// The refusals are those of `open`, in the same order.
    pub fn open_refusal(&self, queue: &[u8]) -> Option<Refusal>
        ensures { IsRight self.now (λ d b h. MatchOption result
            (MayOpen (before d b h self.now) ((before d b h self.now).accepted + 1)
            (queue_named self.now.config queue.now))
            (RefusesJob (before d b h self.now) (queue_named self.now.config queue.now))) }
    {
        self.admission(queue).err()
    }

    /// Why the control file of a job would be refused: NotOpen where the job isn't being received, ControlTwice where it has one.
    pub fn control_refusal(&self, job: u64) -> Option<Refusal>
        ensures { IsRight self.now (λ d b h. MatchOption result
            (MayControl (before d b h self.now) job) (RefusesControl (before d b h self.now) job)) }
    {
        self.lacks_control(job).err()
    }

    /// The next page of a job's open file, behind those that were put; None where the job isn't being received or no file of it
    /// is open.
    pub fn open_file(&self, job: u64) -> Option<FilePage>
        ensures { IsRight self.now (λ d b h.
            MatchOption result (HasOpenFile d b h self.now job → ⊥)
            (λ r. IsOpenFile d b h self.now job r.file r.number)) }
    {
        let Some(i) = self.book.find(job) else {
            return None;
        };
        let found = self.book.job(i);
        if !is_receiving(found) {
            return None;
        }
        if !self.book.is_open(i) {
            return None;
        }
        Some(next_page(found))
    }

    /// The pages by where they are. All together are the pages of the spool.
    pub fn pages_by_place(&self) -> Pages
        ensures { IsRight self.now (λ d b h.
            ArePlaced d b h self.now
            (placed result.free result.chained result.lent result.out)) }
    {
        Pages {
            free: self.pool.free(),
            chained: self.book.stored(),
            lent: count_lent(&self.book),
            out: count_out(self.printers.as_slice()),
        }
    }
}
