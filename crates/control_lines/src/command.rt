//! Commands.

ghost use Rattle.std.specs.Prelude.{◌≡◌, ◌∷◌, ◌++◌, [], IfOk, OnOk, codes};
ghost use Rattle.std.specs.Fmt.{decimal};
ghost use Rattle.control_lines.specs.Commands.{written, verb_of, Means, Reads, IsQueueOf};
ghost use Rattle.control_lines.specs.Verbs.{verb_word};

use crate::operands::{after, cut, is_queue_name, is_whom, read_seconds};
use crate::verb::Verb;
use decimals::read_decimal;
use lpd_values::Octets;
use std::alloc::{AllocError, Global};

/// What a server is asked for over its control socket.
#[derive(Debug, Drop)]
pub enum ControlCommand {
    /// Tells how the spool, its sessions, its printers and its jobs stand.
    Status,
    /// Starts the stopped printers of the queue.
    Start { queue: Octets },
    /// Holds the queue: its printers begin no further job.
    Hold { queue: Octets },
    /// Ends a hold of the queue.
    Release { queue: Octets },
    /// Removes jobs of the queue: the one of this number, or those of this user.
    Remove { queue: Octets, whom: Octets },
    /// Removes one received job, by its number of acceptance.
    CancelJob { number: u64 },
    /// Removes one kept job, by the number of its file.
    CancelFile { number: u64 },
    /// Has a job printed that failed, by the number of its file.
    Resend { number: u64 },
    /// Has each job printed that failed.
    ResendAll,
    /// Has each job of the queue printed that failed.
    ResendQueue { queue: Octets },
    /// Rotates the account.
    Rotate,
    /// Stops the server once the held jobs are printed, at the latest after so many seconds where they are told.
    Stop { seconds: Option<u32> },
    /// Stops the server at once.
    StopNow,
}

/// Why a line wasn't read as a command.
#[derive(Clone, Copy, Debug, PartialEq, Eq)]
pub enum CommandFault {
    /// It is the line of no command.
    Unknown,
    /// Memory was refused.
    Memory,
}

impl From<AllocError> for CommandFault {
    ghost use Rattle.std.specs.Prelude.{◌≡◌};
    ghost use Rattle.control_lines.specs.declared.command.CommandFault.TheVariants.{Memory};

    ghost from_gives = { λ _ e. e ≡ Memory };

    fn from(_error: AllocError) -> CommandFault {
        CommandFault::Memory
    }
}

/// The queue of this name.
///
/// `Unknown` where these octets can't name one; `Memory` where memory for them is refused.
fn queue_of(alloc: Global, name: &[u8]) -> Result<Octets, CommandFault>
    ensures { IsQueueOf name.now result }
{
    if !is_queue_name(name) {
        return Err(CommandFault::Unknown);
    }
    Ok(Octets::copy_of(alloc, name)?)
}

/// The removal of these operands.
fn removal_of(alloc: Global, operands: &[u8]) -> Result<ControlCommand, CommandFault>
    ensures { Reads (codes "remove " ++ operands.now) result }
{
    let Some((queue, whom)) = cut(operands) else {
        return Err(CommandFault::Unknown);
    };
    if !is_whom(whom) {
        return Err(CommandFault::Unknown);
    }
    let queue = queue_of(alloc, queue)?;
    let whom = Octets::copy_of(alloc, whom)?;
    Ok(ControlCommand::Remove { queue, whom })
}

/// The removal of one job, with this operand.
fn cancel_of(operand: &[u8]) -> Result<ControlCommand, CommandFault>
    ensures { Reads (codes "cancel " ++ operand.now) result }
{
    if let Some(digits) = after(operand, b"job ") {
        let number = read_decimal(digits).ok_or(CommandFault::Unknown)?;
        return Ok(ControlCommand::CancelJob { number });
    }
    let digits = after(operand, b"file ").ok_or(CommandFault::Unknown)?;
    let number = read_decimal(digits).ok_or(CommandFault::Unknown)?;
    Ok(ControlCommand::CancelFile { number })
}

/// The command to print what failed, with this operand.
fn resend_of(alloc: Global, operand: &[u8]) -> Result<ControlCommand, CommandFault>
    ensures { Reads (codes "resend " ++ operand.now) result }
{
    if operand == b"all".as_slice() {
        return Ok(ControlCommand::ResendAll);
    }
    if let Some(name) = after(operand, b"all ") {
        let queue = queue_of(alloc, name)?;
        return Ok(ControlCommand::ResendQueue { queue });
    }
    let number = read_decimal(operand).ok_or(CommandFault::Unknown)?;
    Ok(ControlCommand::Resend { number })
}

/// The stop with this operand.
fn stop_of(operand: &[u8]) -> Result<ControlCommand, CommandFault>
    ensures { Reads (codes "stop " ++ operand.now) result }
{
    match operand {
        b"now" => Ok(ControlCommand::StopNow),
        _ => {
            let seconds = read_seconds(operand).ok_or(CommandFault::Unknown)?;
            Ok(ControlCommand::Stop {
                seconds: Some(seconds),
            })
        }
    }
}

impl Verb {
    /// The command that this word alone is.
    fn alone(self) -> Result<ControlCommand, CommandFault>
        ensures { Reads (verb_word self) result }
    {
        match self {
            Verb::Status => Ok(ControlCommand::Status),
            Verb::Rotate => Ok(ControlCommand::Rotate),
            Verb::Stop => Ok(ControlCommand::Stop { seconds: None }),
            Verb::Start | Verb::Hold | Verb::Release | Verb::Remove | Verb::Cancel | Verb::Resend =>
                Err(CommandFault::Unknown),
        }
    }

    /// The command that this word is with what follows it and a space.
    fn with(self, alloc: Global, operand: &[u8]) -> Result<ControlCommand, CommandFault>
        ensures { Reads (verb_word self ++ 32 ∷ operand.now) result }
    {
        match self {
            Verb::Start => {
                let queue = queue_of(alloc, operand)?;
                Ok(ControlCommand::Start { queue })
            }
            Verb::Hold => {
                let queue = queue_of(alloc, operand)?;
                Ok(ControlCommand::Hold { queue })
            }
            Verb::Release => {
                let queue = queue_of(alloc, operand)?;
                Ok(ControlCommand::Release { queue })
            }
            Verb::Remove => removal_of(alloc, operand),
            Verb::Cancel => cancel_of(operand),
            Verb::Resend => resend_of(alloc, operand),
            Verb::Stop => stop_of(operand),
            Verb::Status | Verb::Rotate => Err(CommandFault::Unknown),
        }
    }
}

impl ControlCommand {
    /// The command of a line without its LF. Each command has one line, and each line one command at most.
    ///
    /// # Errors
    ///
    /// `Unknown` exactly where the line is that of no command; `Memory` only where the command names a queue, and memory for it
    /// is refused.
    pub fn parse(alloc: Global, line: &[u8]) -> Result<ControlCommand, CommandFault>
        ensures { Reads line.now result }
    {
        let Some((word, operand)) = cut(line) else {
            return match Verb::read(line) {
                Some(verb) => verb.alone(),
                None => Err(CommandFault::Unknown),
            };
        };
        let Some(verb) = Verb::read(word) else {
            return Err(CommandFault::Unknown);
        };
        verb.with(alloc, operand)
    }

    /// Its first word.
    fn verb(&self) -> Verb
        ensures { result ≡ verb_of self.now }
    {
        match self {
            ControlCommand::Status => Verb::Status,
            ControlCommand::Start { .. } => Verb::Start,
            ControlCommand::Hold { .. } => Verb::Hold,
            ControlCommand::Release { .. } => Verb::Release,
            ControlCommand::Remove { .. } => Verb::Remove,
            ControlCommand::CancelJob { .. } | ControlCommand::CancelFile { .. } => Verb::Cancel,
            ControlCommand::Resend { .. }
            | ControlCommand::ResendAll
            | ControlCommand::ResendQueue { .. } => Verb::Resend,
            ControlCommand::Rotate => Verb::Rotate,
            ControlCommand::Stop { .. } | ControlCommand::StopNow => Verb::Stop,
        }
    }

    /// The octets of its line with its LF. What is written of a command that can be said is read back as that command.
    ///
    /// AllocError where memory for them is refused.
    pub fn line(&self, alloc: Global) -> Result<Octets, AllocError>
        ensures { IfOk result (λ octets. octets ≡ written self.now ++ 10 ∷ []) }
    {
        let mut line = Vec::from_slice(alloc, self.verb().word())?;
        match self {
            ControlCommand::Status
            | ControlCommand::Rotate
            | ControlCommand::Stop { seconds: None } => {}
            ControlCommand::Start { queue }
            | ControlCommand::Hold { queue }
            | ControlCommand::Release { queue } => {
                put_operand(&mut line, queue.as_slice())?;
            }
            ControlCommand::Remove { queue, whom } => {
                put_operand(&mut line, queue.as_slice())?;
                put_operand(&mut line, whom.as_slice())?;
            }
            ControlCommand::CancelJob { number } => {
                put_operand(&mut line, b"job")?;
                put_number(alloc, &mut line, *number)?;
            }
            ControlCommand::CancelFile { number } => {
                put_operand(&mut line, b"file")?;
                put_number(alloc, &mut line, *number)?;
            }
            ControlCommand::Resend { number } => put_number(alloc, &mut line, *number)?,
            ControlCommand::ResendAll => put_operand(&mut line, b"all")?,
            ControlCommand::ResendQueue { queue } => {
                put_operand(&mut line, b"all")?;
                put_operand(&mut line, queue.as_slice())?;
            }
            ControlCommand::Stop {
                seconds: Some(seconds),
            } => put_number(alloc, &mut line, u64::from(*seconds))?,
            ControlCommand::StopNow => put_operand(&mut line, b"now")?,
        }
        line.push(b'\n')?;
        Ok(Octets::from_vec(line))
    }
}

/// Puts a space and the operand at the end of the line.
fn put_operand(line: &mut Vec<u8>, operand: &[u8]) -> Result<(), AllocError>
    ensures { OnOk result (line.new.items ≡ line.old.items ++ 32 ∷ operand.now) }
{
    line.push(b' ')?;
    line.extend_from_slice(operand)
}

/// Puts a space and the number at the end of the line.
fn put_number(alloc: Global, line: &mut Vec<u8>, number: u64) -> Result<(), AllocError>
    ensures { OnOk result (line.new.items ≡ line.old.items ++ 32 ∷ decimal number) }
{
    put_operand(line, number.to_string(alloc)?.as_bytes())
}
