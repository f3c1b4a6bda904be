//! What is counted of the account, and how much of that may be given back.

ghost use Rattle.std.specs.Prelude.{◌≡◌, ◌≤◌, ◌*◌, ◌^◌, [], IfOk, length, map, sum_by};
ghost use Rattle.account.specs.Seen.{base_seen};
ghost use Rattle.config_values.specs.Config as C;
ghost use Rattle.held_jobs.specs.Jobs.{HeldJob};
ghost use Rattle.spool_history.specs.Rotated.{rotated};
ghost use Rattle.spool_laws.specs.Freeing.{still_reserved};
ghost use Rattle.spool_calls.specs.Calls.{IsRight, Rotates, before};
ghost use Rattle.spool_calls.specs.Kept.{Leaves};

use crate::closing::{count_stopped, forget_jobs};
use crate::core_state::Core;
use account::Base;
use config_values::Config;
use queues::Book;
use spool_calls::Printer;
use std::alloc::{AllocError, Global};

/// What the held jobs may add to the account, all together.
fn reserves_of(config: &Config, book: &Book) -> u128
    ensures value { result
        ≡ sum_by (λ (j : HeldJob). C.reserve_of config.now j.facts.queue) book.now.jobs }
    ensures within { result ≤ 2 ^ 40 * length book.now.jobs }
{
    let mut sum = 0;
    for i in 0..book.len() {
        sum += u128::from(config.reserve_of(book.job(i).queue()));
    }
    sum
}

/// Whether each of these printers is stopped.
fn stops_of(alloc: Global, printers: &[Printer]) -> Result<Vec<bool>, AllocError>
    ensures { IfOk result (λ v. v.items ≡ map (λ (p : Printer). p.stopped) printers.now) }
{
    printers
        .iter()
        .map(|printer| printer.stopped)
        .collect(alloc)
}

impl Core {
    /// What the held jobs may still add to the account, and one for each stopped printer.
    pub fn still_reserved(&self) -> u128
        ensures { IsRight self.now (λ d b h. result ≡ still_reserved (before d b h self.now)) }
    {
        let held = reserves_of(&self.config, &self.book);
        held + count_stopped(self.printers.as_slice()) as u128
    }

    /// Lets the account have more entries, where entries that were counted for jobs which are gone are no more needed.
    pub fn set_account(&mut self, entries: u64)
        requires more { self.old.config.account ≤ entries }
        requires most { entries ≤ 2 ^ 62 }
        ensures new { self.new ≡ record self.old {
          config = record self.old.config { account = entries };
        } }
        ensures answer { IsRight self.old (λ d b h. Leaves d b h self.new) }
    {
        self.config.set_account(entries);
    }

    /// Puts the history away, where no job is held, as `rotated` does; and the account may have so many entries from then on.
    pub fn rotated_to(&mut self, entries: u64)
        requires jobs { self.old.book.jobs ≡ [] }
        requires some { (1 ≤ entries) × (entries ≤ 2 ^ 62) }
        ensures config { self.new.config ≡ record self.old.config { account = entries } }
        ensures answer { IsRight self.old (λ d b h. Rotates d b h self.old self.new) }
    {
        self.reserved = count_stopped(self.printers.as_slice()) as u64;
        forget_jobs(self.printers.as_mut_slice());
        self.config.set_account(entries);
    }

    /// The base after all that happened, where no job is held.
    ///
    /// AllocError where memory for it is refused.
    pub fn base(&self, alloc: Global) -> Result<Base, AllocError>
        ensures { IfOk result (λ base. IsRight self.now (λ d b h.
            base_seen base ≡ rotated (before d b h self.now))) }
    {
        Ok(Base {
            accepted: self.accepted,
            reserved: count_stopped(self.printers.as_slice()) as u64,
            closed: self.closed,
            stopped: stops_of(alloc, self.printers.as_slice())?,
        })
    }
}
