//! Serving a session.

ghost use Rattle.request_session.specs.Served.{around, side, source};
ghost use Rattle.session.specs.Served.{Served};

use crate::seated::Seated;
use lpd_commands::{OctetRead, OctetWrite};
use request_session::{SessionEnd, serve_by};
use shared_spool::{SessionSeat, SharedSpool, SpoolLedger};
use std::alloc::Global;
use std::sync::Wait;
use std::sync::ledger::Ledger;

/// Serves a session of a sender: reads octets, at most `BUFFER_SIZE` at once, carries out what they
/// ask for through the seat, and writes what is due, until the session is over (RFC 1179, sections
/// 3 to 6). At its end the job in hand is aborted with the page in hand, before the octet of a
/// refusal is written; where the spool doesn't take that page it is surrendered.
///
/// It waits while no page may be lent to its job. Memory for the buffer and the receiver is taken
/// at first, and where it is refused the end is Memory.
pub fn serve<E: SpoolLedger, K: Ledger, H: Ledger, R: Wait, I: OctetRead, W: OctetWrite>(
    rt: &R,
    alloc: Global,
    spool: &SharedSpool<E, K, H>,
    seat: SessionSeat<E, K, H>,
    sender: u32,
    reader: &mut I,
    writer: &mut W,
) -> (SessionSeat<E, K, H>, SessionEnd)
    ensures { Served result.1 sender
        (around (source (I.left reader.old) (I.faults reader.old) (I.reads reader.old))
        (side (W.written writer.old) (W.faults writer.old)) seat)
        (around (source (I.left reader.new) (I.faults reader.new) (I.reads reader.new))
        (side (W.written writer.new) (W.faults writer.new)) result.0) }
{
    let mut seated = Seated::new(rt, spool, seat);
    let end = serve_by(rt, alloc, &mut seated, sender, reader, writer);
    (seated.into_seat(), end)
}
