//! What stops the program: one line on standard error, and an exit status.

ghost use Rattle.std.specs.Prelude.{◌≡◌};
ghost use Rattle.lpd_script.specs.Status.{status_of};
ghost use Rattle.lpd_script.specs.declared.fault.Fault.TheVariants.{Config, Memory};

use program_edge::FaultName;
use spool_config::ConfigFault;
use std::alloc::AllocError;
use thiserror::Error;

/// Why the program stopped.
#[derive(Clone, Copy, Debug, PartialEq, Eq, Error)]
pub enum Fault {
    /// The configuration can't be used.
    #[error("{0}")]
    Config(ConfigFault),
    /// The script's line of this number, from 1, can't be run.
    #[error("{name} {0}", name = FaultName::BadScript)]
    BadScript(u64),
    /// Memory was refused.
    #[error("{}", FaultName::Memory)]
    Memory,
    /// The input can't be read.
    #[error("{}", FaultName::ReadFile)]
    ReadFile,
    /// The output can't be written.
    #[error("{}", FaultName::WriteFile)]
    WriteFile,
}

impl From<AllocError> for Fault {
    ghost from_gives = { λ _ fault. fault ≡ Memory };

    fn from(_error: AllocError) -> Fault {
        Fault::Memory
    }
}

impl From<ConfigFault> for Fault {
    ghost from_gives = { λ cause fault. fault ≡ Config cause };

    fn from(fault: ConfigFault) -> Fault {
        Fault::Config(fault)
    }
}

impl Fault {
    /// The exit status: 2 for the configuration, 3 for the script, 4 for the rest.
    pub fn status(self) -> u8
        ensures { result ≡ status_of self }
    {
        match self {
            Fault::Config(ConfigFault::Memory) => 4,
            Fault::Config(_) => 2,
            Fault::BadScript(_) => 3,
            Fault::Memory | Fault::ReadFile | Fault::WriteFile => 4,
        }
    }
}
