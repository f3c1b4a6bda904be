//! A session whose jobs are kept.

ghost use Rattle.std.specs.Prelude.{None};
ghost use Rattle.request_session.specs.Served.{around, side, source};
ghost use Rattle.job_hand.specs.Hand.{Follows};
ghost use Rattle.kept_requests.specs.Served.{ServedKept};

use crate::keeping::Keeping;
use job_hand::Folder;
use parked_requests::Parks;
use request_session::{OctetRead, OctetWrite, SessionEnd, serve_by};
use std::alloc::Global;
use std::sync::Wait;

/// Serves a session of a sender as `serve_by` does. The octet 00 for the file that makes a job whole is
/// written only after the job was kept; at each moment of the run a crash leaves of the job in hand the whole or none, and of each job
/// that was passed on the whole.
pub fn serve_kept<Q: Parks, F: Folder, R: Wait, I: OctetRead, W: OctetWrite>(
    rt: &R,
    alloc: Global,
    spool: &mut Keeping<Q, F>,
    sender: u32,
    reader: &mut I,
    writer: &mut W,
) -> SessionEnd
    requires { Follows F.seen F.may_leave spool.old.hand None }
    ensures { ServedKept Q.carries Q.ends F.seen F.may_leave F.moment F.left_since F.may_lack
        result sender
        (around (source (I.left reader.old) (I.faults reader.old) (I.reads reader.old))
        (side (W.written writer.old) (W.faults writer.old)) spool.old)
        (around (source (I.left reader.new) (I.faults reader.new) (I.reads reader.new))
        (side (W.written writer.new) (W.faults writer.new)) spool.new) }
{
    serve_by(rt, alloc, spool, sender, reader, writer)
}
