//! Why a line is refused.

use std::alloc::{AllocError, AllocFailed};

/// Why a line is refused.
#[derive(Clone, Copy, Debug, PartialEq, Eq)]
pub enum AuditFault {
    /// It is no line of a segment, or none that may stand there.
    Line,
    /// It is an entry that may not come there in a legal account, or by version 1 a last line where a job is held.
    Entry,
    /// The head of a segment that doesn't follow on the one before it, or isn't the one that is asked for.
    Follow,
    /// Memory was refused.
    Memory,
}

impl From<AllocError> for AuditFault {
    ghost use Rattle.std.specs.Prelude.{◌≡◌};
    ghost use Rattle.segment_audit.specs.declared.fault.AuditFault.TheVariants.{Memory};

    ghost from_gives = { λ _ r. r ≡ Memory };

    fn from(_: AllocError) -> AuditFault {
        AuditFault::Memory
    }
}

impl<T: Drop> From<AllocFailed<T>> for AuditFault {
    ghost use Rattle.std.specs.Prelude.{◌≡◌};
    ghost use Rattle.segment_audit.specs.declared.fault.AuditFault.TheVariants.{Memory};

    ghost from_gives = { λ _ r. r ≡ Memory };

    fn from(_failed: AllocFailed<T>) -> AuditFault {
        AuditFault::Memory
    }
}
