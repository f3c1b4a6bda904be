//! The end of a session.

ghost use Rattle.std.specs.Prelude.{◌≡◌, true};
ghost use Rattle.receiver.specs.View.{held};
ghost use Rattle.request_calls.specs.Pages.{first_page};
ghost use Rattle.request_session.specs.Carried.{AtEnd};
ghost use Rattle.request_session.specs.Served.{side};
ghost use Rattle.request_session.specs.Turned.{SaysLast};

use crate::talk::Talk;
use lpd_commands::{OctetFault, OctetWrite, write_all};
use lpd_values::Refusal;
use request_calls::{Requests, first, spend};

/// Why a session ended.
#[derive(Clone, Copy, Debug, PartialEq, Eq)]
pub enum SessionEnd {
    /// All was done that its first line asked for: to start printers, to tell a queue's state or
    /// to remove jobs.
    Finished,
    /// The peer ended the connection with no job in hand and no octet of a line sent.
    Closed,
    /// The peer ended the connection elsewhere.
    Broken,
    /// The octet of this refusal was written.
    Refused(Refusal),
    /// The reader failed, or `MOST_READS` reads were made.
    ReadFault,
    /// The writer failed.
    WriteFault,
    /// Memory for the session was refused: nothing was read or written.
    Memory,
}

/// Writes the octet of the refusal that ended a session, if one did. WriteFault where the writer
/// fails, and else the same end.
pub(crate) fn say_last<W: OctetWrite>(writer: &mut W, end: SessionEnd) -> SessionEnd
    ensures { SaysLast end result (side (W.written writer.old) (W.faults writer.old))
        (side (W.written writer.new) (W.faults writer.new)) }
{
    match end {
        SessionEnd::Refused(refusal) => match write_all(writer, &[refusal.octet()]) {
            Ok(()) => end,
            Err(OctetFault) => SessionEnd::WriteFault,
        },
        _ => end,
    }
}

impl Talk {
    /// Aborts the job in hand with the page in hand. Where the spool doesn't take the page it is
    /// surrendered.
    pub(crate) fn hang_up<T: Requests>(self, spool: &mut T)
        ensures ends { AtEnd T.ends self.receiver.job self.job spool.old spool.new }
        ensures page { self.receiver.job ≡ true → T.ends spool.old self.job
            (first_page (held self.receiver.items self.receiver.tail) self.kept) spool.new }
    {
        let Talk {
            sender: _,
            receiver,
            job,
            kept,
        } = self;
        let in_hand = receiver.has_job();
        let page = first(receiver.into_ticket(), kept);
        if !in_hand {
            spend(page);
            return;
        }
        if let Err(returned) = spool.abort(job, page) {
            returned.surrender();
        }
    }
}
