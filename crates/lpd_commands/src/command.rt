//! Command lines.

ghost use Rattle.std.specs.Prelude.{◌≡◌};
ghost use Rattle.lpd_commands.specs.Line.{command_at, command_of};
ghost use Rattle.lpd_values.specs.Given.{Gives};
ghost use Rattle.lpd_commands.specs.Layout.{AnswersCommand};

use crate::words::{is_worded, next_word, words_in};
use lpd_values::{MAX_LINE, Octets, Refusal, Words};
use std::alloc::Global;

/// What a connection asks for first (RFC 1179, section 5).
#[derive(Debug, Drop)]
pub enum Command {
    /// Starts the stopped printers of the queue.
    PrintWaiting {
        queue: Octets,
    },
    /// Receives jobs for the queue.
    Receive {
        queue: Octets,
    },
    /// Tells the state of the queue, of the listed jobs and users alone where there are any.
    State {
        queue: Octets,
        list: Words,
        long: bool,
    },
    /// Removes the listed jobs for the agent.
    Remove {
        queue: Octets,
        agent: Octets,
        list: Words,
    },
}

/// The command of a line that isn't too long.
fn parse_short(alloc: Global, line: &[u8]) -> Result<Command, Refusal>
    ensures { Gives result (command_at line.now) }
{
    let (code, rest) = line.split_first().ok_or(Refusal::BadCode)?;
    if *code == 0 || *code > 5 {
        return Err(Refusal::BadCode);
    }
    if !is_worded(rest) {
        return Err(Refusal::BadLine);
    }
    let (queue, rest) = next_word(rest).ok_or(Refusal::BadLine)?;
    match *code {
        1 => Ok(Command::PrintWaiting {
            queue: Octets::copy_of(alloc, queue)?,
        }),
        2 => Ok(Command::Receive {
            queue: Octets::copy_of(alloc, queue)?,
        }),
        3 | 4 => Ok(Command::State {
            queue: Octets::copy_of(alloc, queue)?,
            list: words_in(alloc, rest)?,
            long: *code == 4,
        }),
        _ => {
            let (agent, list) = next_word(rest).ok_or(Refusal::BadLine)?;
            Ok(Command::Remove {
                queue: Octets::copy_of(alloc, queue)?,
                agent: Octets::copy_of(alloc, agent)?,
                list: words_in(alloc, list)?,
            })
        }
    }
}

/// The command of a line without its LF, or the first refusal that fits: `LineTooLong`, `BadCode`, `BadLine`, and then
/// `Memory` (RFC 1179, section 5).
pub fn parse_command(alloc: Global, line: &[u8]) -> Result<Command, Refusal>
    ensures value { Gives result (command_of line.now) }
    ensures layout { AnswersCommand line.now result }
{
    if line.len() > MAX_LINE {
        return Err(Refusal::LineTooLong);
    }
    parse_short(alloc, line)
}
