//! What holds of lines that are audited.

ghost use Rattle.segment_audit.specs.Meant.{AuditedAreLegal, RunsAreLegal};

use account::Outline;
use spool_laws::wider_is_legal;

/// The events of each run since its last base are legal from that base, in an account that has as many entries more as were given
/// back.
pub fn audited_runs_are_legal()
    ensures { RunsAreLegal }
{
    wider_is_legal::<Outline>();
}

/// The entries of each segment that begins from a base are legal from that.
pub fn audited_segments_are_legal()
    ensures { AuditedAreLegal }
{
    wider_is_legal::<Outline>();
}
