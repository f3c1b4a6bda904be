//! Why a job isn't kept.

ghost use Rattle.std.specs.Prelude.{◌≡◌};
ghost use Rattle.kept_jobs.specs.declared.folder.KeepError.TheVariants as keep;
ghost use Rattle.job_hand.specs.declared.cause.Cause.TheVariants as cause;

use kept_jobs::KeepError;
use std::alloc::{AllocError, AllocFailed};

/// Why a job isn't kept.
#[derive(Clone, Copy, Debug, PartialEq, Eq)]
pub enum Cause {
    /// It couldn't be read back: its queue's name, a file or its control file has no line of its own, or its files came otherwise than
    /// announced.
    Unfit,
    /// The folder has failed, or memory was refused.
    Folder(KeepError),
    /// The spool refused what came of it.
    Refused,
}

impl From<KeepError> for Cause {
    ghost from_gives = { λ e c. c ≡ cause.Folder e };

    fn from(error: KeepError) -> Self {
        Cause::Folder(error)
    }
}

impl From<AllocError> for Cause {
    ghost from_gives = { λ _ c. c ≡ cause.Folder keep.Memory };

    fn from(_: AllocError) -> Self {
        Cause::Folder(KeepError::Memory)
    }
}

impl<T: Drop> From<AllocFailed<T>> for Cause {
    ghost from_gives = { λ _ c. c ≡ cause.Folder keep.Memory };

    fn from(_: AllocFailed<T>) -> Self {
        Cause::Folder(KeepError::Memory)
    }
}
