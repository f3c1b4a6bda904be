//! How faults are told: in a line of their own.
//!
//! The cause of a fault is no part of that line, which scripts and units read, and which stays as it is to the letter. Which file or
//! address it is about, and the system's reason, is a line of the log before it, at INFO. The program lets these lines through wherever its
//! standard error leads: who starts a server under systemd, or a check by cron, has no other word of what is wrong.

ghost use Rattle.std.specs.Prelude.{◌≡◌, ◌++◌, ◌∷◌, [], OnOk, OnErr, Some};
ghost use Rattle.lpd_commands.specs.Ends.{Writes, one_more};
ghost use Rattle.program_edge.specs.Told.{IsTold, fault_text};

use log::{Log, info};
use lpd_commands::{OctetFault, OctetWrite, write_all};
use std::alloc::{AllocError, Global};
use std::fmt;
use std::io::Error;

/// The part of the program that tells causes, as the log names it: by which a log can choose their lines.
pub const CAUSES: &str = "program_edge::telling";

/// What stops the program, as it is printed: the word `fault`, a number and a name. The names stand here once, but for those of a
/// configuration and of a job that isn't taken, whose crates stand below: `ConfigFault` and `SendFault`.
#[derive(Clone, Copy, Debug, PartialEq, Eq)]
pub enum FaultName {
    /// Memory was refused.
    Memory,
    /// A line of a script can't be run.
    BadScript,
    /// A file or the input can't be read.
    ReadFile,
    /// A server can't be reached, or an address can't be listened on.
    Network,
    /// A file or the output can't be written.
    WriteFile,
}

impl FaultName {
    /// The words that are printed.
    pub fn text(self) -> &'static str
        ensures { result.now ≡ fault_text self }
    {
        match self {
            FaultName::Memory => "fault 12 Memory",
            FaultName::BadScript => "fault 70 BadScript",
            FaultName::ReadFile => "fault 71 ReadFile",
            FaultName::Network => "fault 72 Network",
            FaultName::WriteFile => "fault 73 WriteFile",
        }
    }
}

impl fmt::Display for FaultName {
    ghost output = { λ name. Some (fault_text name) };

    fn fmt<W: fmt::Write>(&self, f: &mut fmt::Formatter<W>) -> fmt::Result {
        f.write_str(self.text())
    }
}

/// Tells the log at INFO what a fault is about, a file or an address, and why it failed; nothing
/// where there is no cause. The fault's own line comes after it.
pub fn tell_cause<R: Log, W: fmt::Display>(rt: &R, what: &W, cause: Option<Error>) {
    if let Some(cause) = cause {
        info!(rt; target: CAUSES, "{what}: {cause}");
    }
}

/// Tells a fault in a line of its own; where memory is short for that line, it says that. An error
/// where it can't be written.
pub fn tell<F: fmt::Display, E: OctetWrite>(
    alloc: Global,
    fault: &F,
    faults: &mut E,
) -> Result<(), OctetFault>
    ensures told { OnOk result
        (IsTold (F.output fault.now) (E.written faults.old) (E.written faults.new)) }
    ensures ok { OnOk result (E.faults faults.new ≡ E.faults faults.old) }
    ensures err { OnErr result (E.faults faults.new ≡ one_more (E.faults faults.old)) }
{
    match format!(in alloc; "{fault}\n") {
        Ok(line) => write_all(faults, line.as_bytes()),
        Err(AllocError) => {
            write_all(faults, FaultName::Memory.text().as_bytes())?;
            write_all(faults, b"\n")
        }
    }
}
