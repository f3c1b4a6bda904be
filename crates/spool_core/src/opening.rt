//! The acceptance of jobs.

ghost use Rattle.std.specs.Prelude.{◌≡◌, ◌≢◌, ◌<◌, ◌≤◌, All, IfErr, IfOk, OnErr, OnOk, length};
ghost use Rattle.counts.specs.Amounts.{amount, Fits};
ghost use Rattle.claims.specs.declared.row.Row.{Row};
ghost use Rattle.claims.specs.Changes.{opened};
ghost use Rattle.config_values.specs.Config as C;
ghost use Rattle.held_jobs.specs.Jobs.{HeldJob};
ghost use Rattle.config_values.specs.Config.{queue_named};
ghost use Rattle.spool_history.specs.Refusals.{RefusesJob};
ghost use Rattle.spool_calls.specs.Calls.{IsRight, Opens, OpensFor, before};
ghost use Rattle.spool_core.specs.Places.{Accepts};
ghost use Rattle.held_jobs.specs.Moves.{with_new};
ghost use Rattle.spool_core.specs.Inside.{claim_in};

use crate::core_state::Core;
use crate::kinds::claim_of;
use claims::{OpenError, Table};
use config_values::Config;
use lpd_values::Refusal;
use queues::Book;
use std::alloc::{AllocError, Global};

/// A job that is to be accepted.
#[derive(Clone, Copy)]
struct Opening {
    /// The number that it is given.
    number: u64,
    /// The number of its sender.
    sender: u32,
    /// The number of its queue.
    queue: u32,
}

/// Adds a job to the book and its row to the table. AllocError where memory for either is refused; nothing changes then.
fn add_job(
    alloc: Global,
    config: &Config,
    book: &mut Book,
    table: &mut Table,
    job: Opening,
) -> Result<(), AllocError>
    requires queue { C.IsQueue config.now job.queue }
    requires room { length book.old.jobs < book.old.max_jobs }
    requires other { All (λ (j : HeldJob). j.facts.number ≢ job.number) book.old.jobs }
    requires rows { length table.old.rows < table.old.room }
    requires greater { All (λ (r : Row). r.number < job.number) table.old.rows }
    requires kinds { length (claim_in config.now job.queue) ≡ length table.old.capacity }
    requires fits { Fits (claim_in config.now job.queue) (amount table.old.capacity) }
    ensures book { OnOk result (book.new ≡ with_new book.old job.number job.sender job.queue) }
    ensures table { OnOk result (table.new
        ≡ opened table.old job.number job.sender job.queue (claim_in config.now job.queue)) }
    ensures same_book { OnErr result (book.new ≡ book.old) }
    ensures same_table { OnErr result (table.new ≡ table.old) }
{
    let Opening {
        number,
        sender,
        queue,
    } = job;
    let need = claim_of(alloc, config, queue)?;
    book.add(number, sender, queue)?;
    match table.open_row(number, sender, queue, &need) {
        Ok(()) => Ok(()),
        Err(OpenError::Memory) => {
            book.remove(book.len() - 1);
            Err(AllocError)
        }
        Err(OpenError::OverCapacity) => unreachable!(),
        Err(OpenError::Full) => unreachable!(),
    }
}

impl Core {
    /// The number of the queue of a name, where one more job of it may be accepted.
    ///
    /// The refusals are those of `open`, in the same order, but for want of memory.
    pub fn admission(&self, queue: &[u8]) -> Result<u32, Refusal>
        ensures named { IfOk result (λ q. queue_named self.now.config queue.now ≡ q) }
        ensures accepted { IfOk result (Accepts self.now) }
        ensures refused { IfErr result (λ n. IsRight self.now (λ d b h.
            RefusesJob (before d b h self.now) (queue_named self.now.config queue.now) n)) }
    {
        if self.closed {
            return Err(Refusal::Closed);
        }
        let number = self.config.queue_named(queue);
        let number = number.ok_or(Refusal::UnknownQueue)?;
        if self.config.max_jobs() as usize <= self.book.len() {
            return Err(Refusal::TableFull);
        }
        let reserve = u128::from(self.reserved) + u128::from(self.config.reserve_of(number));
        if u128::from(self.config.account()) <= reserve || self.accepted == u64::MAX {
            return Err(Refusal::AccountFull);
        }
        Ok(number)
    }

    /// Accepts a job from a sender for the queue of a number that `admission` answered, and answers the job's number.
    ///
    /// Memory where memory for the job is refused.
    pub fn accept(&mut self, sender: u32, queue: u32) -> Result<u64, Refusal>
        requires { Accepts self.old queue }
        ensures config { self.new.config ≡ self.old.config }
        ensures answer { IsRight self.old (λ d b h.
            OpensFor d b h self.old sender queue self.new result) }
    {
        let number = self.accepted + 1;
        let book = &mut self.book;
        let table = &mut self.table;
        let job = Opening {
            number,
            sender,
            queue,
        };
        add_job(self.alloc, &self.config, book, table, job)?;
        self.accepted = number;
        // Counted until the base changes, also when the job is gone: what a trim gives back makes the account larger instead.
        self.reserved += self.config.reserve_of(queue);
        Ok(number)
    }

    /// Accepts a job from a sender for a queue, and answers its number: 1, 2, 3 and so on, over all queues.
    ///
    /// Closed; UnknownQueue; TableFull where as many jobs are held as may be; AccountFull where the account has no room for all
    /// entries of one more job, or no number is left; Memory where memory for the job is refused.
    pub fn open(&mut self, sender: u32, queue: &[u8]) -> Result<u64, Refusal>
        ensures config { self.new.config ≡ self.old.config }
        ensures answer { IsRight self.old (λ d b h.
            Opens d b h self.old sender queue.now self.new result) }
    {
        let queue = self.admission(queue)?;
        self.accept(sender, queue)
    }
}
