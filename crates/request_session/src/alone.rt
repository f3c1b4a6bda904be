//! A session that a core serves alone.

ghost use Rattle.request_session.specs.Alone.{ServedAlone};
ghost use Rattle.request_session.specs.Served.{around, side, source};

use crate::ending::SessionEnd;
use crate::session::serve_by;
use lpd_commands::{OctetRead, OctetWrite};
use spool_core::Core;
use std::alloc::Global;
use std::sync::Wait;

/// Serves a session of a sender by a core that it has alone, as `serve_by` does. After each history
/// that led to where the core was, each answer is the one that is due, and the history grows by the
/// event of each request; at the end by an abort of the job in hand, if it may be aborted. With no
/// page for its job it asks for ever.
pub fn serve_alone<R: Wait, I: OctetRead, W: OctetWrite>(
    rt: &R,
    alloc: Global,
    core: &mut Core,
    sender: u32,
    reader: &mut I,
    writer: &mut W,
) -> SessionEnd
    ensures { ServedAlone result sender
        (around (source (I.left reader.old) (I.faults reader.old) (I.reads reader.old))
        (side (W.written writer.old) (W.faults writer.old)) core.old)
        (around (source (I.left reader.new) (I.faults reader.new) (I.reads reader.new))
        (side (W.written writer.new) (W.faults writer.new)) core.new) }
{
    serve_by(rt, alloc, core, sender, reader, writer)
}
