//! The words of `control`: what they say.

ghost use Rattle.std.specs.Prelude.{IfErr, IfOk};
ghost use Rattle.clap.specs.Words.{found_of, rows_of};
ghost use Rattle.program_words.specs.Asked.{IsControlRequest, IsLine, IsPath};
ghost use Rattle.program_words.specs.Refused.{HasNoCommand, HasNoPath, LacksRequest};

use crate::values::{text_of, texts_of};
use crate::word_fault::WordFault;
use clap::ArgMatches;
use control_lines::{CommandFault, ControlCommand};
use program_edge::MOST_CONTROL_PATH;
use std::alloc::Global;

/// A command for the server whose control socket is at a path.
#[derive(Debug, Drop)]
pub struct ControlRequest<'a> {
    /// The path of the socket, at most `MOST_CONTROL_PATH` octets.
    pub path: &'a str,
    /// The command.
    pub command: ControlCommand,
}

/// The path of a control socket. `Missing` where it isn't there, `Control` where it is too long, and `Memory`.
fn path_of<'a>(alloc: Global, matches: &ArgMatches<'a>) -> Result<&'a str, WordFault>
    ensures path { IfOk result (λ path. IsPath (rows_of (found_of matches.now)) path.now) }
    ensures fault { IfErr result (HasNoPath (rows_of (found_of matches.now))) }
{
    let path = text_of(matches, "path")?;
    if path.len() > MOST_CONTROL_PATH {
        return Err(WordFault::Control(String::from_str(alloc, path)?));
    }
    Ok(path)
}

/// The command that words are, with a space between two. `Missing` where there are none, `ControlCommand` where they are no
/// command, and `Memory`.
fn command_of(alloc: Global, matches: &ArgMatches) -> Result<ControlCommand, WordFault>
    ensures command { IfOk result (IsLine (rows_of (found_of matches.now))) }
    ensures fault { IfErr result (HasNoCommand (rows_of (found_of matches.now))) }
{
    let words = texts_of(matches, "word")?;
    let line = words.join(alloc, " ")?;
    match ControlCommand::parse(alloc, line.as_bytes()) {
        Ok(command) => Ok(command),
        Err(CommandFault::Unknown) => Err(WordFault::Command),
        Err(CommandFault::Memory) => Err(WordFault::Memory),
    }
}

/// What words say of a command for a server.
pub(crate) fn request_of<'a>(
    alloc: Global,
    matches: &ArgMatches<'a>,
) -> Result<ControlRequest<'a>, WordFault>
    ensures request { IfOk result (IsControlRequest (rows_of (found_of matches.now))) }
    ensures fault { IfErr result (LacksRequest (rows_of (found_of matches.now))) }
{
    Ok(ControlRequest {
        path: path_of(alloc, matches)?,
        command: command_of(alloc, matches)?,
    })
}
