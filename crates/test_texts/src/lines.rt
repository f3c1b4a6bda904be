//! Command lines, subcommand lines, file names, texts of control files, and what is said over a control socket.

use control_file::Control;
use control_lines::{CommandFault, Escaped, read_answer};
use lpd_commands::{FileName, Octets, Refusal, parse_command, parse_sub, write_command, write_sub};
use std::alloc::{AllocError, Global};
use test_kit::rows::{octets, push_read};

/// The command of a line, as it is written.
fn read_command(alloc: Global, line: &[u8]) -> Result<Octets, Refusal> {
    Ok(write_command(alloc, &parse_command(alloc, line)?)?)
}

/// Appends the command of a line, as it is written, or the refusal.
pub fn command(told: &mut String, alloc: Global, asked: &str) -> Result<(), AllocError> {
    let line = octets(alloc, asked)?;
    push_read(told, read_command(alloc, line.as_slice()))
}

/// The subcommand of a line, as it is written.
fn read_subcommand(alloc: Global, line: &[u8]) -> Result<Octets, Refusal> {
    Ok(write_sub(alloc, &parse_sub(line)?)?)
}

/// Appends the subcommand of a line, as it is written, or the refusal.
pub fn subcommand(told: &mut String, alloc: Global, asked: &str) -> Result<(), AllocError> {
    let line = octets(alloc, asked)?;
    push_read(told, read_subcommand(alloc, line.as_slice()))
}

/// Appends a file name, whether it is a control file's, and its number, or the refusal.
pub fn name(told: &mut String, alloc: Global, asked: &str) -> Result<(), AllocError> {
    let name = octets(alloc, asked)?;
    match FileName::read(name.as_slice()) {
        Ok(name) => {
            let octets = format!(in alloc; "{}", name.octets().escape_ascii())?;
            let octets = octets.as_bytes().escape_ascii();
            write!(told, "{octets} {} {}", name.is_control(), name.number())
        }
        Err(refusal) => push_read(told, Err(refusal)),
    }
}

/// The control file of a text under a name of its own, as a copy of it is written.
fn read_control(alloc: Global, text: &[u8]) -> Result<Octets, Refusal> {
    let name = FileName::read(b"cfA001h1")?;
    let control = Control::parse(alloc, &name, text)?;
    Ok(control.copy(alloc)?.write(alloc)?)
}

/// Appends the control file of a text, as a copy of it is written, or the refusal.
pub fn control(told: &mut String, alloc: Global, asked: &str) -> Result<(), AllocError> {
    let text = octets(alloc, asked)?;
    push_read(told, read_control(alloc, text.as_slice()))
}

/// The command of a line over a control socket, as it is written.
fn read_control_line(alloc: Global, line: &[u8]) -> Result<Octets, CommandFault> {
    Ok(control_lines::ControlCommand::parse(alloc, line)?.line(alloc)?)
}

/// Appends the command of a line over a control socket, as it is written, or why there is none.
pub fn control_line(told: &mut String, alloc: Global, asked: &str) -> Result<(), AllocError> {
    let line = octets(alloc, asked)?;
    match read_control_line(alloc, line.as_slice()) {
        Ok(octets) => write!(told, "{}", octets.as_slice().escape_ascii()),
        Err(CommandFault::Unknown) => told.push_str("unknown"),
        Err(CommandFault::Memory) => told.push_str("memory"),
    }
}

/// Appends how an answer over a control socket ends, and after a bar the octets that come before its last line; or that it has no end.
pub fn answer(told: &mut String, alloc: Global, asked: &str) -> Result<(), AllocError> {
    let answer = octets(alloc, asked)?;
    match read_answer(answer.as_slice()) {
        Some((before, end)) => write!(told, "{end} | {}", before.escape_ascii()),
        None => told.push_str("no end"),
    }
}

/// Appends octets of strangers as they are shown.
pub fn escape(told: &mut String, alloc: Global, asked: &str) -> Result<(), AllocError> {
    let octets = octets(alloc, asked)?;
    write!(told, "{}", Escaped(octets.as_slice()))
}
