//! A session's reader.

ghost use Rattle.receiver.specs.Script.{Over};
ghost use Rattle.std.specs.Prelude.{◌≡◌, ◌≤◌, [], ◌∷◌, length, drop, None, IfOk, IsTrue, IsSome, false, ◌↔◌, ◌++◌};
ghost use Rattle.receiver.specs.Reading.{start, IsFitting, after_reply};
ghost use Rattle.receiver.specs.View.{Steps, Leaves, Rested, outputs, reply_of, IsEmptyTicket, held};
ghost use Rattle.receiver.specs.Leads.{Advances, Replies};
ghost use Rattle.receiver.specs.Idle.{IsIdle};

use crate::machine::Machine;
use crate::need::{Answer, Need};
use page_pool::PageTicket;
use std::alloc::{AllocError, Global};
use std::marker::Model;

/// Reads the octets of a session in any pieces. A ticket in hand has to be spent.
pub struct Receiver {
    machine: Machine,
}

impl Model for Receiver {
    ghost use Rattle.receiver.specs.Reading.{Progress};
    ghost use Rattle.receiver.specs.Sound.{state_of, IsSound};

    ghost Value = { Progress };

    ghost view = { λ r. state_of r.machine };

    ghost invariant = { λ r. IsSound r.machine };
}

impl Receiver {
    /// At the beginning of a session. Room for a line of 1,023 octets and a control text of 8,192 is taken here.
    pub fn new(alloc: Global) -> Result<Self, AllocError>
        ensures { IfOk result (λ r. r ≡ start) }
    {
        Ok(Receiver {
            machine: Machine::new(alloc)?,
        })
    }

    /// Reads on, and answers how many octets it consumed and what it needs.
    ///
    /// Memory is taken only where a line or a control text has ended; where it is refused the need is Fault(Memory).
    pub fn advance(&mut self, input: &[u8]) -> (usize, Need)
        requires { self.old.owed ≡ None }
        ensures within { result.0 ≤ length input.now }
        // What is due, exactly.
        ensures step { Steps self.old input.now result.0 result.1 self.new }
        // Whether an answer is owed, and what is left after a session. A data file that is to begin
        // has octets.
        ensures leaves { Leaves result.1 self.new }
        // What comes after the call is the rest of what comes from before it.
        ensures reading { Advances self.old input.now (outputs result.1) self.new
            (drop result.0 input.now) }
        // After the end nothing is read, written or asked any more.
        ensures over { self.old.items ≡ Over ∷ []
            → (result.0 ≡ 0) × (result.1 ≡ Need.Ended) × (self.new ≡ self.old) }
        // Nothing is due until an octet or an answer comes; More only where all input is consumed.
        ensures rested { Rested result.1 result.0 input.now self.new }
    {
        self.machine.advance(input)
    }

    /// Answers the request that waits.
    pub fn reply(&mut self, answer: Answer)
        requires fits { IsFitting self.old.owed (reply_of answer) }
        requires empty { IsEmptyTicket answer }
        ensures answered { self.new ≡ after_reply self.old (reply_of answer) }
        ensures nothing { self.new.owed ≡ None }
        ensures reading { Replies self.old (reply_of answer) self.new }
    {
        self.machine.reply(answer)
    }

    /// Whether an answer is owed, and is to be given before the next call of `advance`.
    pub fn owes(&self) -> bool
        ensures owed { IsTrue result ↔ IsSome self.now.owed }
        ensures nothing { result ≡ false → self.now.owed ≡ None }
    {
        self.machine.owes()
    }

    /// Whether a job is in hand: one was opened, and neither received nor aborted since.
    pub fn has_job(&self) -> bool
        ensures { result ≡ self.now.job }
    {
        self.machine.has_job()
    }

    /// Whether it is between blocks, with no job in hand and no octet of a line read.
    pub fn is_idle(&self) -> bool
        ensures { IsTrue result ↔ IsIdle self.now }
    {
        self.machine.is_idle()
    }

    /// Ends the reading, and gives the ticket in hand.
    pub fn into_ticket(self) -> Option<PageTicket>
        ensures { result ≡ held self.items self.tail }
    {
        let Receiver { machine } = self;
        machine.into_ticket()
    }
}
