//! What stops the program.

ghost use Rattle.std.specs.Prelude.{◌≡◌};
ghost use Rattle.word_actions.specs.Status.{status_of};
ghost use Rattle.word_actions.specs.declared.fault.ActionFault.TheVariants.{Memory, Run};

use crate::{controlling, folders, readers, reasons, sockets};
use lpr_client::SendFault;
use printer_devices::SHARED_FOLDERS;
use program_edge::FaultName;
use spool_config::PlacesFault;
use std::alloc::AllocError;
use thiserror::Error;

/// The parts of the program that tell why something failed, as the log names them: by which a log can choose their lines.
pub const CAUSES: &[&str] = &[
    program_edge::CAUSES,
    SHARED_FOLDERS,
    controlling::PART,
    folders::PART,
    readers::PART,
    reasons::PART,
    sockets::PART,
];

/// Why the program stopped.
#[derive(Debug, PartialEq, Eq, Drop, Error)]
pub enum ActionFault {
    /// Memory was refused.
    #[error("{}", FaultName::Memory)]
    Memory,
    /// A file can't be read or written, a configuration can't be used, or a script can't be run.
    #[error("{0}")]
    Run(lpd_script::Fault),
    /// The server can't be reached.
    #[error("{}", FaultName::Network)]
    Network,
    /// The server didn't take the job.
    #[error("{0}")]
    Send(SendFault),
    /// A word names no printer of the configuration, may name two, or names one that has a place: this text says so.
    #[error("{0}")]
    Printer(String),
    /// The configuration says of its printers what it may not.
    #[error("{0}")]
    Places(PlacesFault),
    /// The folder at this path can't be taken to keep jobs, or isn't there for the printers' files.
    #[error("{name} {0}", name = FaultName::WriteFile)]
    Folder(String),
    /// A control socket can't be made at this path.
    #[error("{name} {0}", name = FaultName::Network)]
    Socket(String),
    /// A queue of the configuration takes no job, of which its sizes were told: no line of its own tells it.
    #[error("")]
    NoJobFits,
}

impl From<AllocError> for ActionFault {
    ghost from_gives = { λ _ fault. fault ≡ Memory };

    fn from(_error: AllocError) -> ActionFault {
        ActionFault::Memory
    }
}

impl From<lpd_script::Fault> for ActionFault {
    ghost from_gives = { λ cause fault. fault ≡ Run cause };

    fn from(fault: lpd_script::Fault) -> ActionFault {
        ActionFault::Run(fault)
    }
}

impl ActionFault {
    /// The exit status: 1 for a printer that can't be named so, 2 for the configuration, 3 for the script,
    /// 5 for a job that wasn't taken, 4 for the rest.
    pub fn status(&self) -> u8
        ensures { result ≡ status_of self.now }
    {
        match self {
            ActionFault::Printer(_) => 1,
            ActionFault::Places(_) => 2,
            ActionFault::NoJobFits => 2,
            ActionFault::Run(fault) => fault.status(),
            ActionFault::Memory
            | ActionFault::Network
            | ActionFault::Folder(_)
            | ActionFault::Socket(_) => 4,
            ActionFault::Send(SendFault::Memory) => 4,
            ActionFault::Send(_) => 5,
        }
    }
}
