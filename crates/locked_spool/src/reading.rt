//! What a locked spool tells of itself. No reader changes anything, and none but `snapshot` takes memory.

ghost use Rattle.std.specs.Prelude.{◌≡◌, ◌==◌, ◌+◌, ◌-◌, ◌↔◌, ◌<◌, IfOk, IsTrue, MatchOption, count_by, length};
ghost use Rattle.config_values.specs.Config.{IsPrinter, IsQueue, queue_named, queue_of};
ghost use Rattle.spool_history.specs.Now.{Job, free_pages};
ghost use Rattle.spool_history.specs.Legal.{HasJob};
ghost use Rattle.spool_calls.specs.Looks.{What};
ghost use Rattle.spool_calls.specs.Calls.{IsRight, before};
ghost use Rattle.spool_calls.specs.Readers.{ArePlaced, placed};
ghost use Rattle.spool_core.specs.Printers.{MustWait};
ghost use Rattle.spool_core.specs.Wanted.{GoesOn};
ghost use Rattle.locked_spool.specs.Rotation.{MayKeep};
ghost use Rattle.locked_spool.specs.Waiting.{Begins, HasStopped, IsIdle, Stands, Waits};
ghost use Rattle.spool_snapshot.specs.Shows.{Shows};

use crate::locked::Locked;
use spool_core::{Pages, Snapshot, Vacancy};
use spool_ledgers::SpoolLedger;
use std::alloc::AllocError;
use std::sync::ledger::Ledger;

impl<E: SpoolLedger, K: Ledger, H: Ledger> Locked<E, K, H> {
    /// How many jobs are held.
    pub fn held(&self) -> usize
        ensures { IsRight self.now.core (λ d b h.
            result ≡ length (before d b h self.now.core).jobs) }
    {
        self.core.held()
    }

    /// How many entries of the account are counted for the jobs that were accepted and for the starts that may come, but for what
    /// trims gave back.
    pub fn counted(&self) -> u64
        ensures value { result ≡ self.now.core.reserved - self.now.freed }
        ensures reserved { IsRight self.now.core (λ d b h.
            result + self.now.freed ≡ (before d b h self.now.core).reserved) }
    {
        self.core.counted_reserve() - self.freed
    }

    /// Whether the account may be kept: at least so many entries are counted, and no job is held, or a trim gives so many back.
    pub fn may_keep(&self, least: u64) -> bool
        ensures { IsTrue result ↔ MayKeep self.now least }
    {
        least <= self.counted() && (self.core.held() == 0 || least <= self.gives_back())
    }

    /// What there is room for, at this moment, with what trims gave back.
    pub fn vacancy(&self) -> Vacancy
        ensures held { IsRight self.now.core (λ d b h.
            result.held ≡ length (before d b h self.now.core).jobs) }
        ensures rows { IsRight self.now.core (λ d b h.
            result.rows ≡ E.config.max_jobs - length (before d b h self.now.core).jobs) }
        ensures pages { IsRight self.now.core (λ d b h.
            result.pages ≡ free_pages (before d b h self.now.core)) }
        ensures entries { IsRight self.now.core (λ d b h. result.entries
            ≡ self.now.freed + E.config.account - (before d b h self.now.core).reserved) }
    {
        self.core.vacancy()
    }

    /// Whether a job is held and hasn't ended.
    pub fn is_wanted(&self, job: u64) -> bool
        ensures { IsRight self.now.core (λ d b h.
            IsTrue result ↔ HasJob (before d b h self.now.core).jobs job GoesOn) }
    {
        self.core.is_wanted(job)
    }

    /// How many jobs of a queue are held.
    pub fn held_in(&self, queue: u32) -> usize
        ensures { IsRight self.now.core (λ d b h. result
            ≡ count_by (λ (v : Job (What d)). v.queue == queue) (before d b h self.now.core).jobs) }
    {
        self.core.held_in(queue)
    }

    /// Whether a printer has this number and is stopped.
    pub fn is_stopped(&self, printer: u32) -> bool
        ensures { IsTrue result ↔ Stands E.config self.now printer }
    {
        self.core.config().is_printer(printer) && self.core.is_stopped(printer)
    }

    /// The pages by where they are. All together are the pages of the spool.
    pub fn pages_by_place(&self) -> Pages
        ensures placed { IsRight self.now.core (λ d b h.
            ArePlaced d b h self.now.core
            (placed result.free result.chained result.lent result.out)) }
        ensures all { result.chained + result.lent + result.out + result.free ≡ E.config.pages }
    {
        self.core.pages_by_place()
    }

    /// The spool as it is now.
    ///
    /// AllocError where memory for it is refused.
    pub fn snapshot(&self) -> Result<Snapshot, AllocError>
        ensures { IfOk result (λ s. IsRight self.now.core (λ d b h. Shows d b h self.now.core s)) }
    {
        self.core.snapshot()
    }

    /// The number of this segment of the account: one more than how often it was rotated.
    pub fn segment(&self) -> u64
        ensures { result ≡ self.now.number }
    {
        self.number
    }

    /// Whether a printer of some queue is stopped. It looks at each queue.
    fn finds_stopped(&self) -> bool
        ensures { IsRight self.now.core (λ d b h. IsTrue result ↔ HasStopped d b h self.now.core) }
    {
        let queues = self.core.config().queues().len() as u32;
        for before in 0..queues {
            if 0 < self.core.stopped_in(before + 1) {
                return true;
            }
        }
        false
    }

    /// Whether a printer of some queue is stopped. The queues are looked at only where a page failed since all printers were
    /// seen to run.
    fn has_stopped(&self) -> bool
        ensures { IsRight self.now.core (λ d b h. IsTrue result ↔ HasStopped d b h self.now.core) }
    {
        self.may_be_stopped && self.finds_stopped()
    }

    /// Looks whether a printer is stopped still.
    pub(crate) fn look_for_stopped(&mut self)
        ensures { self.new ≡ self.old }
    {
        self.may_be_stopped = self.finds_stopped();
    }

    /// Whether no job is held, or a printer is stopped.
    pub fn is_idle(&self) -> bool
        ensures { IsRight self.now.core (λ d b h. IsTrue result ↔ IsIdle d b h self.now.core) }
    {
        self.core.held() == 0 || self.has_stopped()
    }

    /// The number of the queue of a name.
    pub fn queue_number(&self, name: &[u8]) -> Option<u32>
        ensures { MatchOption result (queue_named E.config name.now ≡ 0)
            (λ q. (queue_named E.config name.now ≡ q) × IsQueue E.config q) }
    {
        self.core.queue_number(name)
    }

    /// The number of the queue that a printer serves, or 0 where no printer has this number.
    pub fn queue_of(&self, printer: u32) -> u32
        ensures { result ≡ queue_of E.config printer }
    {
        self.core.config().queue_of(printer)
    }

    /// Whether `next` would hand a printer the first page of a job, which would begin there.
    pub fn begins_next(&self, printer: u32) -> bool
        ensures { IsTrue result ↔ Begins E.config self.now printer }
    {
        self.core.config().is_printer(printer) && self.core.begins_next(printer)
    }

    /// Whether a printer has to wait for its next page: `next` would answer Nothing or Stopped.
    pub fn must_wait(&self, printer: u32) -> bool
        ensures waits { IsRight self.now.core (λ d b h. IsTrue result
            ↔ IsPrinter E.config printer × MustWait d b h self.now.core printer) }
        ensures here { IsTrue result ↔ Waits E.config self.now printer }
    {
        self.core.config().is_printer(printer) && self.core.must_wait(printer)
    }
}
