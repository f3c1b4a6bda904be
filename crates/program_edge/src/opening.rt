//! What a server can't open at its start.

ghost use Rattle.program_edge.specs.Openings.{IsRefusal, Tells, refusal_text};
ghost use Rattle.std.specs.Prelude.{◌≡◌, IfOk, Some};

use crate::telling::FaultName;
use std::alloc::{AllocError, AllocFailed, Global};
use std::fmt;

/// What a server opens at its start.
#[derive(Clone, Copy, Debug, PartialEq, Eq)]
pub enum StartPart {
    /// What the printer of this number prints to.
    Printer(u32),
    /// The folder in which jobs are kept.
    Spool,
    /// The folder in which the account's segments become files.
    Account,
    /// Where hosts are listened to.
    Listener,
    /// Where the status is shown.
    Status,
}

/// What a server couldn't open at its start, where that is, and why.
///
/// As a fault it is WriteFile with the path, of a printer and of a folder, or Network, of an address.
#[derive(Debug, PartialEq, Eq, Drop)]
pub struct FailedOpening {
    /// What wasn't opened.
    pub what: StartPart,
    /// Its path or its address.
    pub at: String,
    /// Why, in words.
    pub cause: String,
}

impl FailedOpening {
    /// What couldn't be opened there, for this cause. AllocError where memory for the words is refused.
    fn new<A: fmt::Display, C: fmt::Display>(
        alloc: Global,
        what: StartPart,
        at: &A,
        cause: &C,
    ) -> Result<FailedOpening, AllocError>
        ensures { IfOk result (Tells what (A.output at.now) (C.output cause.now)) }
    {
        Ok(FailedOpening {
            what,
            at: at.to_string(alloc)?,
            cause: cause.to_string(alloc)?,
        })
    }
}

impl fmt::Display for FailedOpening {
    ghost output = { λ opening. Some (refusal_text opening) };

    fn fmt<W: fmt::Write>(&self, f: &mut fmt::Formatter<W>) -> fmt::Result {
        match self.what {
            StartPart::Printer(_) | StartPart::Spool | StartPart::Account => {
                write!(f, "{name} {at}", name = FaultName::WriteFile, at = self.at)
            }
            StartPart::Listener | StartPart::Status => write!(f, "{}", FaultName::Network),
        }
    }
}

/// Why a server doesn't start.
#[derive(Debug, PartialEq, Eq, Drop)]
pub enum StartFault {
    /// Memory was refused.
    Memory,
    /// Something couldn't be opened.
    Opening(FailedOpening),
}

impl From<AllocError> for StartFault {
    ghost use Rattle.program_edge.specs.declared.opening.StartFault.TheVariants.{Memory};

    ghost from_gives = { λ _ fault. fault ≡ Memory };

    fn from(_error: AllocError) -> StartFault {
        StartFault::Memory
    }
}

impl<T: Drop> From<AllocFailed<T>> for StartFault {
    ghost use Rattle.program_edge.specs.declared.opening.StartFault.TheVariants.{Memory};

    ghost from_gives = { λ _ fault. fault ≡ Memory };

    fn from(_error: AllocFailed<T>) -> StartFault {
        StartFault::Memory
    }
}

impl StartFault {
    /// The fault of what couldn't be opened there, for this cause. Memory where memory for the words is refused.
    pub fn of<A: fmt::Display, C: fmt::Display>(
        alloc: Global,
        what: StartPart,
        at: &A,
        cause: &C,
    ) -> StartFault
        ensures { IsRefusal what (A.output at.now) (C.output cause.now) result }
    {
        match FailedOpening::new(alloc, what, at, cause) {
            Ok(opening) => StartFault::Opening(opening),
            Err(AllocError) => StartFault::Memory,
        }
    }
}
