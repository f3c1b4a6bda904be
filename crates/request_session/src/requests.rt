//! Requests of a session, carried out and answered to its receiver.

ghost use Rattle.std.specs.Prelude.{◌≡◌, IsSome};
ghost use Rattle.receiver.specs.View.{BeginsSome, asked};
ghost use Rattle.request_session.specs.Turned.{Answered, here};

use crate::talk::Talk;
use receiver::Need;
use request_calls::{Answer, Outcome, Requests, carry_out, keep, reply};

impl Talk {
    /// Carries out a request, and gives the receiver its answer.
    pub(crate) fn carry_out<T: Requests>(&mut self, spool: &mut T, request: Need) -> Answer
        requires asks { IsSome (asked request) }
        requires begins { BeginsSome request }
        requires owed { self.old.receiver.owed ≡ asked request }
        ensures { Answered T.carries request result (here self.old spool.old)
            (here self.new spool.new) }
    {
        let Outcome { answer, page } = carry_out(spool, self.sender, self.job, request);
        if let Answer::Accepted(job) = answer {
            self.job = job;
        }
        let page = reply(&mut self.receiver, &answer, page);
        keep(&mut self.kept, page);
        answer
    }
}
