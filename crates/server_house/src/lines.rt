//! What a server prints.

ghost use Rattle.std.specs.Prelude.{◌≡◌, Some, OnOk, IfErr};
ghost use Rattle.lpd_commands.specs.Ends.{Writes};
ghost use Rattle.server_house.specs.Faults.{IsRunningFault, write_faults};
ghost use Rattle.server_house.specs.Lines.{line_octets, line_text};

use crate::faults::ServerFault;
use log::{Log, error};
use lpd_commands::{OctetWrite, write_all};
use std::alloc::Global;
use std::fmt;

/// A line that a server prints.
#[derive(Clone, Copy)]
pub enum PrintedLine {
    /// It listens at this port.
    Listening { port: u16 },
    /// The account was rotated: the segment's number, and its entries.
    Rotated { number: u64, entries: u64 },
    /// The spool is closed: the entries of all segments.
    Closed { entries: u64 },
}

impl fmt::Display for PrintedLine {
    ghost output = { λ line. Some (line_text line) };

    fn fmt<W: fmt::Write>(&self, f: &mut fmt::Formatter<W>) -> fmt::Result {
        match *self {
            PrintedLine::Listening { port } => write!(f, "listening {port}"),
            PrintedLine::Rotated { number, entries } => write!(
                f,
                "rotated {number} entries {entries}"
            ),
            PrintedLine::Closed { entries } => write!(f, "closed entries {entries}"),
        }
    }
}

/// Writes a line to the output. Output where it can't be written; Memory where memory for it is
/// refused.
pub fn print<W: OctetWrite>(
    alloc: Global,
    output: &mut W,
    line: PrintedLine,
) -> Result<(), ServerFault>
    ensures written { OnOk result
        (Writes (W.written output.old) (W.written output.new) (line_octets line)) }
    ensures write_fault { W.faults output.new ≡ write_faults (W.faults output.old) result }
    ensures fault { IfErr result IsRunningFault }
{
    let text = format!(in alloc; "{line}\n")?;
    write_all(output, text.as_bytes()).or(Err(ServerFault::Output))
}

/// Writes a line to the output, as `print` does. Where it can't be written that is logged.
pub fn print_or_tell<R: Log, W: OctetWrite>(
    rt: &R,
    alloc: Global,
    output: &mut W,
    line: PrintedLine,
) -> Result<(), ServerFault>
    ensures written { OnOk result
        (Writes (W.written output.old) (W.written output.new) (line_octets line)) }
    ensures write_fault { W.faults output.new ≡ write_faults (W.faults output.old) result }
    ensures fault { IfErr result IsRunningFault }
{
    let printed = print(alloc, output, line);
    if let Err(ServerFault::Output) = &printed {
        error!(rt; "{}", ServerFault::Output);
    }
    printed
}
