//! What stops a server.

ghost use Rattle.std.specs.Prelude.{◌≡◌, ◌↔◌, IsTrue};
ghost use Rattle.server_house.specs.declared.faults.ServerFault.TheVariants.{Memory, Output};

use program_edge::{FailedOpening, FaultName};
use std::alloc::{AllocError, AllocFailed};
use thiserror::Error;

/// Why a server stopped.
#[derive(Debug, PartialEq, Eq, Drop, Error)]
pub enum ServerFault {
    /// Memory was refused, or a thread.
    #[error("{}", FaultName::Memory)]
    Memory,
    /// Something couldn't be opened at its start.
    #[error("{0}")]
    Opening(FailedOpening),
    /// The output can't be written.
    #[error("{}", FaultName::WriteFile)]
    Output,
}

impl From<AllocError> for ServerFault {
    ghost from_gives = { λ _ fault. fault ≡ Memory };

    fn from(_error: AllocError) -> ServerFault {
        ServerFault::Memory
    }
}

impl<T: Drop> From<AllocFailed<T>> for ServerFault {
    ghost from_gives = { λ _ fault. fault ≡ Memory };

    fn from(_error: AllocFailed<T>) -> ServerFault {
        ServerFault::Memory
    }
}

impl ServerFault {
    /// Whether the server has logged it by itself when it ends: a line of the output that can't be written is told where it comes, and
    /// once. The server goes on to its end then, and the program ends with the status of that fault and no second line.
    pub fn is_told(&self) -> bool
        ensures { IsTrue result ↔ self.now ≡ Output }
    {
        matches!(self, ServerFault::Output)
    }

    /// The exit status, 4 for each.
    pub fn status(&self) -> u8
        ensures { result ≡ 4 }
    {
        4
    }
}
