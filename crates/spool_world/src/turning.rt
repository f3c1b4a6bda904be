//! What a connection does when it is its turn, and its end.

ghost use Rattle.std.specs.Prelude.{◌≡◌, ◌∷◌, [], None, IsSome};
ghost use Rattle.receiver.specs.Script as script;
ghost use Rattle.receiver.specs.Script.{Request};
ghost use Rattle.receiver.specs.View.{BeginsSome, asked, outputs};
ghost use Rattle.spool_world.specs.Turns.{Answered, EndsIt, IsEnded, TurnsRight, here};

use crate::connection::Connection;
use crate::requests::kind_of;
use bytes::Buf;
use page_pool::PageTicket;
use receiver::{Need, Receiver};
use request_calls::{Outcome, carry_out, first, keep, reply, spend};
use spool_core::Core;
use spool_trace::{Answer, Deed};

/// Carries out a request, and answers it to the reader.
fn answer(
    reader: &mut Receiver,
    kept: &mut Option<PageTicket>,
    job: &mut u64,
    sender: u32,
    core: &mut Core,
    request: Need,
) -> Deed
    requires asks { IsSome (asked request) }
    requires begins { BeginsSome request }
    requires owed { reader.old.owed ≡ asked request }
    ensures config { core.new.config ≡ core.old.config }
    ensures answered { reader.new.owed ≡ None }
    ensures done { (r : Request) → outputs request ≡ script.Asked r ∷ []
        → Answered sender r result (here core.old reader.old job.old kept.old)
        (here core.new reader.new job.new kept.new) }
{
    let kind = kind_of(&request);
    let Outcome { answer, page } = carry_out(core, sender, *job, request);
    if let Answer::Accepted(number) = answer {
        *job = number;
    }
    keep(kept, reply(reader, &answer, page));
    Deed::Asked(kind, answer)
}

impl Connection {
    /// Reads on to what is due next, and does it. None where the session is over.
    pub fn turn(&mut self, core: &mut Core) -> Option<Deed>
        ensures config { core.new.config ≡ core.old.config }
        ensures turn { TurnsRight core.old core.new self.old self.new result }
    {
        let Some(reader) = &mut self.reader else {
            return None;
        };
        let (count, need) = reader.advance(self.unread.as_slice());
        self.unread.advance(count);
        Some(match need {
            Need::More => Deed::Waited,
            Need::Ack => Deed::Acked,
            Need::Fault(refusal) => {
                self.end(core);
                Deed::Refused(refusal)
            }
            Need::Ended => {
                self.end(core);
                Deed::Ended
            }
            request => answer(
                reader,
                &mut self.kept,
                &mut self.job,
                self.sender,
                core,
                request,
            ),
        })
    }

    /// The session is over: its job in hand is aborted, and the page in its hand goes back.
    pub fn end(&mut self, core: &mut Core)
        ensures config { core.new.config ≡ core.old.config }
        ensures over { IsEnded self.old self.new }
        ensures end { EndsIt core.old core.new self.old self.old.reader }
    {
        let kept = self.kept.take();
        let Some(reader) = self.reader.take() else {
            spend(kept);
            return;
        };
        let in_hand = reader.has_job();
        let page = first(kept, reader.into_ticket());
        if !in_hand {
            spend(page);
            return;
        }
        if let Err(returned) = core.abort(self.job, page) {
            returned.surrender();
        }
    }
}
