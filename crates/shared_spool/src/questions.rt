//! Small questions. Each is answered at one moment under the lock, copies nothing of the spool, changes nothing, and needs no seat.

ghost use Rattle.std.specs.Prelude.{◌≡◌, ◌≤◌, ◌+◌, IsTrue};
ghost use Rattle.config_values.specs.Config.{IsPrinter};

use crate::spool::SharedSpool;
use locked_spool::{Pages, Vacancy};
use spool_ledgers::SpoolLedger;
use std::sync::Wait;
use std::sync::ledger::Ledger;

impl<E: SpoolLedger, K: Ledger, H: Ledger> SharedSpool<E, K, H> {
    /// What the spool has room for: rows of its table, pages, and entries of the account, with what trims gave back.
    pub fn vacancy<R: Wait>(&self, rt: &R) -> Vacancy {
        self.state.lock(rt).locked.vacancy()
    }

    /// The pages by where they are, as `pages_by_place` tells them. All together are the pages of the spool.
    pub fn pages<R: Wait>(&self, rt: &R) -> Pages
        ensures { result.chained + result.lent + result.out + result.free ≡ E.config.pages }
    {
        self.state.lock(rt).locked.pages_by_place()
    }

    /// How many entries of the account are counted for the jobs that were accepted and for the starts that may come, but for what
    /// trims gave back.
    pub fn counted_reserve<R: Wait>(&self, rt: &R) -> u64 {
        self.state.lock(rt).locked.counted()
    }

    /// Whether a job is held and hasn't ended.
    pub fn is_wanted<R: Wait>(&self, rt: &R, job: u64) -> bool {
        self.state.lock(rt).locked.is_wanted(job)
    }

    /// How many jobs of the queue of a number are held.
    pub fn held_in<R: Wait>(&self, rt: &R, queue: u32) -> usize {
        self.state.lock(rt).locked.held_in(queue)
    }

    /// Whether a printer has this number and is stopped.
    pub fn is_stopped<R: Wait>(&self, rt: &R, printer: u32) -> bool
        ensures { IsTrue result → IsPrinter E.config printer }
    {
        self.state.lock(rt).locked.is_stopped(printer)
    }

    /// Whether no job is held, or a printer is stopped: nothing happens any more until somebody calls.
    pub fn is_idle<R: Wait>(&self, rt: &R) -> bool {
        self.state.lock(rt).locked.is_idle()
    }
}
