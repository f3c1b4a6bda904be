//! Serving a session.

ghost use Rattle.std.specs.Prelude.{◌≡◌, ◌<◌, [], length};
ghost use Rattle.receiver.specs.Reading.{start};
ghost use Rattle.request_session.specs.Course.{Course, session_after};
ghost use Rattle.request_session.specs.Served.{HasRead, ServedBy, around, side, source};
ghost use Rattle.request_session.specs.Turned.{EndsThere, IsEnding, moment};

use crate::ending::{SessionEnd, say_last};
use crate::input::Input;
use crate::talk::Talk;
use lpd_commands::{OctetFault, OctetRead, OctetWrite};
use receiver::Receiver;
use request_calls::Requests;
use std::alloc::Global;
use std::sync::Wait;

/// How many reads a session makes, at most.
pub const MOST_READS: u32 = u32::MAX;

impl Talk {
    /// At the beginning of a session.
    fn new(sender: u32, receiver: Receiver) -> Talk
        ensures sender { result.sender ≡ sender }
        ensures receiver { result.receiver ≡ receiver }
        ensures job { result.job ≡ 0 }
    {
        Talk {
            sender,
            receiver,
            job: 0,
            kept: None,
        }
    }

    /// The end to which the peer brings the session, when it ends the connection.
    fn end_here(&self) -> SessionEnd
        ensures { EndsThere result self.now.receiver }
    {
        if self.receiver.is_idle() {
            SessionEnd::Closed
        } else {
            SessionEnd::Broken
        }
    }

    /// Reads octets and does what is due for them, until the session is over. The octet of a
    /// refusal is still to be written then.
    fn read_all<T: Requests, R: Wait, I: OctetRead, W: OctetWrite>(
        &mut self,
        rt: &R,
        spool: &mut T,
        reader: &mut I,
        writer: &mut W,
        buffer: &mut [u8],
    ) -> SessionEnd
        requires start { self.old.receiver ≡ start }
        requires none { self.old.job ≡ 0 }
        requires room { 0 < length buffer.old }
        ensures over { (c : Course)
            × IsEnding T.carries result c
            (moment self.old [] spool.old (side (W.written writer.old) (W.faults writer.old)))
            (moment self.new [] spool.new (side (W.written writer.new) (W.faults writer.new)))
            × HasRead result (session_after self.old.sender c).arrived
            (source (I.left reader.old) (I.faults reader.old) (I.reads reader.old))
            (source (I.left reader.new) (I.faults reader.new) (I.reads reader.new)) }
    {
        'reads: for _i in 0..MOST_READS {
            let count = match reader.read(buffer) {
                Ok(0) => return self.end_here(),
                Ok(count) => count,
                Err(OctetFault) => return SessionEnd::ReadFault,
            };
            if let Some(end) = self.read_on(rt, spool, writer, &buffer[..count]) {
                return end;
            }
        }
        SessionEnd::ReadFault
    }
}

/// Serves a session of a sender: reads octets, at most `BUFFER_SIZE` at once, has carried out what
/// they ask for, and writes what is due, until the session is over (RFC 1179, sections 3 to 6). At
/// its end the job in hand is aborted with the page in hand, before the octet of a refusal is
/// written; where that page isn't taken it is surrendered.
///
/// It waits where what carries the requests out does. One that is asked for a page and answers
/// Later is asked again at once. The octets that it reads wait in `input`, of which nothing is used
/// that an earlier session left there. Memory for the receiver is taken at first, and where it is
/// refused the end is Memory.
pub fn serve_with<T: Requests, R: Wait, I: OctetRead, W: OctetWrite>(
    rt: &R,
    alloc: Global,
    input: &mut Input,
    spool: &mut T,
    sender: u32,
    reader: &mut I,
    writer: &mut W,
) -> SessionEnd
    ensures { ServedBy T.carries T.ends result sender
        (around (source (I.left reader.old) (I.faults reader.old) (I.reads reader.old))
        (side (W.written writer.old) (W.faults writer.old)) spool.old)
        (around (source (I.left reader.new) (I.faults reader.new) (I.reads reader.new))
        (side (W.written writer.new) (W.faults writer.new)) spool.new) }
{
    let Ok(receiver) = Receiver::new(alloc) else {
        return SessionEnd::Memory;
    };
    let mut talk = Talk::new(sender, receiver);
    let buffer = input.octets.as_mut_slice();
    let end = talk.read_all(rt, spool, reader, writer, buffer);
    // The pages of the job go back before the peer is waited for.
    talk.hang_up(spool);
    say_last(writer, end)
}

/// Serves a session as `serve_with` does, with an input of its own. Memory for that is taken before
/// that for the receiver, and where it is refused the end is Memory.
pub fn serve_by<T: Requests, R: Wait, I: OctetRead, W: OctetWrite>(
    rt: &R,
    alloc: Global,
    spool: &mut T,
    sender: u32,
    reader: &mut I,
    writer: &mut W,
) -> SessionEnd
    ensures { ServedBy T.carries T.ends result sender
        (around (source (I.left reader.old) (I.faults reader.old) (I.reads reader.old))
        (side (W.written writer.old) (W.faults writer.old)) spool.old)
        (around (source (I.left reader.new) (I.faults reader.new) (I.reads reader.new))
        (side (W.written writer.new) (W.faults writer.new)) spool.new) }
{
    let Ok(mut input) = Input::new(alloc) else {
        return SessionEnd::Memory;
    };
    serve_with(rt, alloc, &mut input, spool, sender, reader, writer)
}
