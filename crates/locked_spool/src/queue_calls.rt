//! The calls on a queue or on the whole spool.

ghost use Rattle.std.specs.Prelude.{◌≡◌, ◌<◌};
ghost use Rattle.account.specs.declared.kind.Kind.TheVariants as kind;
ghost use Rattle.spool_calls.specs.Calls.{IsRight, Closes, Removes, Starts, Tells};
ghost use Rattle.spool_core.specs.Halves.{FindsRemoval, FindsStart};
ghost use Rattle.locked_spool.specs.Entries.{RemovesThese, WritesClosed, WritesRemoved, WritesStarted, WritesTheseRemoved};
ghost use Rattle.locked_spool.specs.Shares.{OneOrNone, when_listed, when_removed, when_started, when_taken};
ghost use Rattle.locked_spool.specs.Telling.{done_of, text_of};

use crate::locked::{Locked, write};
use account::Entry;
use lpd_values::{Octets, Refusal};
use spool_core::{Removal, Started, Unremoved};
use spool_ledgers::{Shares, SpoolLedger};
use std::sync::ledger::Ledger;

impl<E: SpoolLedger, K: Ledger, H: Ledger> Locked<E, K, H> {
    /// Starts the stopped printers of a queue, and writes the entry of that where one is stopped.
    fn start_queue(&mut self, mine: &mut Shares<E, K, H>, queue: &[u8]) -> Result<Started, Refusal>
        requires { 0 < mine.old.parts }
        ensures found { IsRight self.old.core (λ d b h.
            FindsStart d b h self.old.core queue.now result) }
        ensures answer { IsRight self.old.core (λ d b h.
            Starts d b h self.old.core queue.now self.new.core (done_of result)) }
        ensures account { WritesStarted self.old self.new queue.now (done_of result) }
        ensures shares { mine.new ≡ when_started result mine.old }
    {
        let found = self.core.start_of(queue)?;
        if found.stopped == 0 {
            return Ok(found);
        }
        self.core.start_printers(found.queue);
        let entry = Entry::Started(found.queue);
        write(&mut self.account, &mut self.books, mine, entry);
        Ok(found)
    }

    /// Starts the stopped printers of a queue, and answers the number of the queue and how many of its printers it started. Where
    /// none is stopped nothing changes.
    ///
    /// Closed once the spool is closed; UnknownQueue where no queue has this name.
    pub fn start_telling(
        &mut self,
        mine: &mut Shares<E, K, H>,
        queue: &[u8],
    ) -> Result<Started, Refusal>
        requires { 0 < mine.old.parts }
        ensures found { IsRight self.old.core (λ d b h.
            FindsStart d b h self.old.core queue.now result) }
        ensures answer { IsRight self.old.core (λ d b h.
            Starts d b h self.old.core queue.now self.new.core (done_of result)) }
        ensures account { WritesStarted self.old self.new queue.now (done_of result) }
        ensures shares { mine.new ≡ when_started result mine.old }
    {
        let found = self.start_queue(mine, queue)?;
        if found.stopped > 0 {
            self.look_for_stopped();
        }
        Ok(found)
    }

    /// Removes the jobs of a queue that an agent removes by a list, or its active job alone where the list is empty, and
    /// answers the number of the queue, the numbers of these jobs, and the text that tells of them.
    ///
    /// Closed; UnknownQueue; Memory where memory for the text or for the numbers of the jobs is refused.
    pub fn remove_telling(
        &mut self,
        mine: &mut Shares<E, K, H>,
        queue: &[u8],
        agent: &[u8],
        list: &[Octets],
    ) -> Result<Removal, Refusal>
        requires { 0 < mine.old.parts }
        ensures found { IsRight self.old.core (λ d b h.
            FindsRemoval d b h self.old.core queue.now agent.now list.now result) }
        ensures answer { IsRight self.old.core (λ d b h.
            Removes d b h self.old.core queue.now agent.now list.now self.new.core
            (text_of result)) }
        ensures account { WritesRemoved self.old self.new queue.now agent.now list.now
            (text_of result) }
        ensures numbers { mine.new ≡ when_taken result mine.old }
        ensures text { mine.new ≡ when_removed (text_of result) mine.old }
    {
        let removal = self.core.removal_of(queue, agent, list)?;
        if removal.numbers.is_empty() {
            return Ok(removal);
        }
        // The answer keeps the numbers, so that who calls knows which jobs ended; the entry has a copy, asked for before one ends.
        let jobs = Vec::from_slice(self.alloc, removal.numbers.as_slice())?;
        self.core
            .remove_chosen(removal.queue, removal.numbers.as_slice());
        let entry = Entry::Removed(removal.queue, jobs);
        write(&mut self.account, &mut self.books, mine, entry);
        Ok(removal)
    }

    /// Removes these jobs of a queue, all or none, and answers the number of the queue. No agent is asked: who calls it has the
    /// right. Where there are none nothing changes.
    ///
    /// Refused with Closed or UnknownQueue; Stays with the first number that isn't above the one before it, or that no received
    /// job of the queue has which hasn't ended; else Refused with Memory, where memory for the numbers of the entry is refused.
    pub fn remove_jobs(
        &mut self,
        mine: &mut Shares<E, K, H>,
        queue: &[u8],
        numbers: &[u64],
    ) -> Result<u32, Unremoved>
        requires { 0 < mine.old.parts }
        ensures answer { RemovesThese self.old.core queue.now numbers.now self.new.core result }
        ensures account { WritesTheseRemoved self.old self.new numbers.now result }
        ensures shares { mine.new ≡ when_listed numbers.now result mine.old }
    {
        let found = self.core.removable(queue, numbers)?;
        if numbers.is_empty() {
            return Ok(found);
        }
        // Memory is asked for before a job ends.
        let Ok(jobs) = Vec::from_slice(self.alloc, numbers) else {
            return Err(Unremoved::Refused(Refusal::Memory));
        };
        self.core.remove_chosen(found, numbers);
        let entry = Entry::Removed(found, jobs);
        write(&mut self.account, &mut self.books, mine, entry);
        Ok(found)
    }

    /// The text that answers a question for the state of a queue. A closed spool answers too.
    ///
    /// UnknownQueue; Memory where memory for the text is refused.
    pub fn state(&self, queue: &[u8], list: &[Octets], long: bool) -> Result<Octets, Refusal>
        ensures { IsRight self.now.core (λ d b h.
            Tells d b h self.now.core queue.now list.now long result) }
    {
        self.core.state(queue, list, long)
    }

    /// Closes the spool: each job ends, and nothing is accepted or handed out from then on. A page that is out may still come
    /// back. A second close changes nothing.
    pub fn close(&mut self, mine: &mut Shares<E, K, H>)
        requires { 0 < mine.old.parts }
        ensures answer { IsRight self.old.core (λ d b h. Closes d b h self.old.core self.new.core) }
        ensures account { WritesClosed self.old self.new }
        ensures shares { OneOrNone kind.Closed mine.old mine.new }
    {
        if self.core.is_closed() {
            return;
        }
        self.core.close();
        write(&mut self.account, &mut self.books, mine, Entry::Closed);
    }
}
