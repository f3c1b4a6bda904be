//! Why a folder can't be used.

ghost use Rattle.std.specs.Prelude.{◌≡◌};
ghost use Rattle.program_edge.specs.Openings.{IsUnopened};
ghost use Rattle.program_edge.specs.declared.opening.StartPart.{StartPart};

use log::{Log, info};
use program_edge::{StartFault, StartPart};
use std::alloc::Global;
use std::fmt::Display;

/// The part of the program that tells why a folder can't be used, as the log names it.
pub const FOLDER_CAUSES: &str = "lpd_daemon::keeping";

/// The fault of a folder that can't be used. The log is told why too.
pub(crate) fn refused<R: Log, W: Display>(
    rt: &R,
    alloc: Global,
    what: StartPart,
    path: &str,
    why: &W,
) -> StartFault
    ensures { IsUnopened (λ (part : StartPart). part ≡ what) result }
{
    info!(rt; target: FOLDER_CAUSES, "{path}: {why}");
    StartFault::of(alloc, what, &path, why)
}
