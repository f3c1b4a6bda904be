//! What a session does for the octets that it has read.

ghost use Rattle.std.specs.Prelude.{◌≡◌, ◌≤◌, [], drop, length, IsSome, None};
ghost use Rattle.receiver.specs.View.{BeginsSome, asked};
ghost use Rattle.request_session.specs.Served.{side};
ghost use Rattle.request_session.specs.Turned.{Answered, TurnsFrom, Writing, here, moment};
ghost use Rattle.request_session.specs.Turned.{turn_if_written, turn_of};
ghost use Rattle.spool_trace.specs.Trace.{text_of};

use crate::ending::SessionEnd;
use lpd_commands::{OctetFault, OctetWrite, write_all};
use page_pool::PageTicket;
use receiver::{Need, Receiver};
use request_calls::{Answer, Requests};
use std::sync::Wait;

/// A session on its way. Its receiver and its page have to be spent.
pub(crate) struct Talk {
    /// The number that stands for its host.
    pub(crate) sender: u32,
    /// What reads its octets.
    pub(crate) receiver: Receiver,
    /// The number of the job that it opened last, or 0.
    pub(crate) job: u64,
    /// A page of its job that the spool didn't take.
    pub(crate) kept: Option<PageTicket>,
}

/// What a turn of a session came to.
#[derive(Clone, Copy, PartialEq, Eq)]
pub(crate) enum Turn {
    /// It goes on.
    On,
    /// All is done for the octets that it has read.
    More,
    /// It is over.
    Over(SessionEnd),
}

/// Over where the writer failed, and else the turn.
fn turn_after(written: Result<(), OctetFault>, turn: Turn) -> Turn
    ensures { result ≡ turn_if_written written turn }
{
    match written {
        Ok(()) => turn,
        Err(OctetFault) => Turn::Over(SessionEnd::WriteFault),
    }
}

impl Talk {
    /// Carries out a request, and writes the text that it was told.
    fn answer<T: Requests, W: OctetWrite>(
        &mut self,
        spool: &mut T,
        writer: &mut W,
        request: Need,
    ) -> Result<(), OctetFault>
        requires asks { IsSome (asked request) }
        requires begins { BeginsSome request }
        requires owed { self.old.receiver.owed ≡ asked request }
        ensures { (answer : Answer)
            × Answered T.carries request answer (here self.old spool.old) (here self.new spool.new)
            × Writing result (text_of answer) (side (W.written writer.old) (W.faults writer.old))
            (side (W.written writer.new) (W.faults writer.new)) }
    {
        match self.carry_out(spool, request) {
            Answer::Told(text) => write_all(writer, text.as_slice()),
            _ => Ok(()),
        }
    }

    /// Does what is due next, and says how many octets it consumed. The octet of a refusal is still
    /// to be written then.
    fn turn<T: Requests, W: OctetWrite>(
        &mut self,
        spool: &mut T,
        writer: &mut W,
        rest: &[u8],
    ) -> (usize, Turn)
        requires { self.old.receiver.owed ≡ None }
        ensures within { result.0 ≤ length rest.now }
        ensures turned { TurnsFrom T.carries result.1
            (moment self.old rest.now spool.old (side (W.written writer.old) (W.faults writer.old)))
            (moment self.new (drop result.0 rest.now) spool.new
            (side (W.written writer.new) (W.faults writer.new))) }
        ensures nothing { self.new.receiver.owed ≡ None }
    {
        let (count, need) = self.receiver.advance(rest);
        match need {
            Need::More => (count, Turn::More),
            Need::Ack => (count, turn_after(write_all(writer, &[0]), Turn::On)),
            Need::Fault(refusal) => (count, Turn::Over(SessionEnd::Refused(refusal))),
            Need::Ended => (count, Turn::Over(SessionEnd::Finished)),
            request => {
                let written = self.answer(spool, writer, request);
                (count, turn_after(written, Turn::On))
            }
        }
    }

    /// Does all that is due for these octets. None where more have to come. The octet of a refusal
    /// is still to be written then.
    pub(crate) fn read_on<T: Requests, R: Wait, W: OctetWrite>(
        &mut self,
        rt: &R,
        spool: &mut T,
        writer: &mut W,
        octets: &[u8],
    ) -> Option<SessionEnd>
        requires { self.old.receiver.owed ≡ None }
        ensures turned { TurnsFrom T.carries (turn_of result)
            (moment self.old octets.now spool.old (side (W.written writer.old) (W.faults writer.old)))
            (moment self.new [] spool.new (side (W.written writer.new) (W.faults writer.new))) }
        ensures nothing { self.new.receiver.owed ≡ None }
    {
        let mut rest = octets;
        'needs: for _ in rt.forever() {
            let (count, turn) = self.turn(spool, writer, rest);
            rest = &rest[count..];
            match turn {
                Turn::On => {}
                Turn::More => return None,
                Turn::Over(end) => return Some(end),
            }
        }
        unreachable!()
    }
}
