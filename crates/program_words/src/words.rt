//! What the words ask for.

ghost use Rattle.std.specs.Prelude.{◌≡◌, [], IfOk, IfErr, Some, codes, map, string_bytes};
ghost use Rattle.clap.specs.Words.{fault_of, found_of, kind_of, rows_of, subcommand_of, subcommand_rows_of};
ghost use Rattle.program_words.specs.Asked.{IsAsked, IsAskedBy, IsSending};
ghost use Rattle.program_words.specs.CommandLine.{command_line};
ghost use Rattle.program_words.specs.Refused.{AsksNothing, HasNoWords, IsUnread, IsUnreadBy, IsUnreadFor};
ghost use Rattle.program_words.specs.Refused.{LacksWords};
ghost use Rattle.program_words.specs.declared.words.Unread.TheVariants.{Memory};

use crate::auditing::{audit_of, usage_of};
use crate::checking::{Checking, checking_of};
use crate::command::command;
use crate::control_request::{ControlRequest, request_of};
use crate::envelope::Envelope;
use crate::questions::{question_of, server_of};
use crate::queue_question::{QueueQuestion, Server};
use crate::serving::{ServeRequest, serving_of};
use crate::values::{flag_of, number_of, text_of, texts_of};
use crate::word_fault::WordFault;
use account_usage::{AuditRequest, UsageRequest};
use clap::error::ErrorKind;
use clap::{ArgMatches, Command, Error};
use std::alloc::{AllocError, Global};
use std::env::Env;
use std::io;

/// A job that is to be sent.
#[derive(Debug, Drop)]
pub struct Sending<'a> {
    /// The server that it is sent to.
    pub server: Server,
    /// The name of the queue.
    pub queue: &'a str,
    /// The job's number, 0 to 999.
    pub number: u16,
    /// The host that sends it.
    pub host: &'a str,
    /// The user that sends it.
    pub user: &'a str,
    /// The paths of the files to print, 1 to 52, in order.
    pub files: Vec<&'a str>,
    /// Whether it is asked to tell how far the job is.
    pub progress: bool,
}

/// What the words ask for.
#[derive(Debug, Drop)]
pub enum Ask<'a> {
    /// No word: to run what the standard input has.
    Input,
    /// To read a configuration.
    Check(Checking<'a>),
    /// To run the script at a path on the spool that the configuration at a path gives.
    Replay {
        config: &'a str,
        script: &'a str,
    },
    /// To send a job.
    Send {
        sending: Sending<'a>,
        envelope: Envelope,
    },
    /// To ask a server for a queue's state or a removal, or to start a queue's printers.
    Question(QueueQuestion),
    /// To serve the queues of the configuration at this path.
    Serve {
        config: &'a str,
        request: ServeRequest<'a>,
    },
    /// To send a command to a server's control socket.
    Control(ControlRequest<'a>),
    /// To check an account.
    Audit(AuditRequest<'a>),
    /// To tell what was used.
    Usage(UsageRequest<'a>),
}

/// Why words ask for nothing.
#[derive(Debug, Drop)]
pub enum Unread {
    /// They ask for this text, help or the version.
    Shown(String),
    /// They can't be read; the text says why.
    Refused(String),
    /// Memory was refused.
    Memory,
}

impl From<AllocError> for Unread {
    ghost from_gives = { λ _ unread. unread ≡ Memory };

    fn from(_error: AllocError) -> Unread {
        Unread::Memory
    }
}

/// Why the words weren't read, with the text for the user.
fn why_unread(alloc: Global, error: &Error) -> Unread
    ensures { IsUnreadBy (kind_of error.now) result }
{
    if error.kind() == ErrorKind::OutOfMemory {
        return Unread::Memory;
    }
    match format!(in alloc; "{error}") {
        Ok(text) if error.use_stderr() => Unread::Refused(text),
        Ok(text) => Unread::Shown(text),
        Err(AllocError) => Unread::Memory,
    }
}

/// What words say of a job that is to be sent.
fn sending_of<'a>(alloc: Global, matches: &ArgMatches<'a>) -> Result<Sending<'a>, WordFault>
    ensures read { IfOk result (IsSending (rows_of (found_of matches.now))) }
    ensures fault { IfErr result (LacksWords (rows_of (found_of matches.now))) }
{
    let server = server_of(matches)?;
    let queue = text_of(matches, "queue")?;
    let number = number_of(matches, "number")?;
    let host = text_of(matches, "host")?;
    let user = text_of(matches, "user")?;
    let files = texts_of(matches, "file")?;
    Ok(Sending {
        server,
        queue,
        number,
        host,
        user,
        files: Vec::from_slice(alloc, files)?,
        progress: flag_of(matches, "progress"),
    })
}

/// What the words of `check` ask for.
fn asked_to_check<'a>(alloc: Global, matches: &ArgMatches<'a>) -> Result<Ask<'a>, WordFault>
    ensures asked { IfOk result (IsAskedBy (codes "check") (rows_of (found_of matches.now))) }
    ensures fault { IfErr result
        (AsksNothing (Some (codes "check", rows_of (found_of matches.now)))) }
{
    Ok(Ask::Check(checking_of(alloc, matches)?))
}

/// What the words of `replay` ask for.
fn asked_to_replay<'a>(matches: &ArgMatches<'a>) -> Result<Ask<'a>, WordFault>
    ensures asked { IfOk result (IsAskedBy (codes "replay") (rows_of (found_of matches.now))) }
    ensures fault { IfErr result
        (AsksNothing (Some (codes "replay", rows_of (found_of matches.now)))) }
{
    let config = text_of(matches, "config")?;
    let script = text_of(matches, "script")?;
    Ok(Ask::Replay { config, script })
}

/// What the words of `send` ask for.
fn asked_to_send<'a>(alloc: Global, matches: &ArgMatches<'a>) -> Result<Ask<'a>, WordFault>
    ensures asked { IfOk result (IsAskedBy (codes "send") (rows_of (found_of matches.now))) }
    ensures fault { IfErr result
        (AsksNothing (Some (codes "send", rows_of (found_of matches.now)))) }
{
    let sending = sending_of(alloc, matches)?;
    let envelope = Envelope::new(alloc, &sending)?;
    Ok(Ask::Send { sending, envelope })
}

/// What the words of `serve` ask for.
fn asked_to_serve<'a>(alloc: Global, matches: &ArgMatches<'a>) -> Result<Ask<'a>, WordFault>
    ensures asked { IfOk result (IsAskedBy (codes "serve") (rows_of (found_of matches.now))) }
    ensures fault { IfErr result
        (AsksNothing (Some (codes "serve", rows_of (found_of matches.now)))) }
{
    let config = text_of(matches, "config")?;
    let request = serving_of(alloc, matches)?;
    Ok(Ask::Serve { config, request })
}

/// What the words of `control` ask for.
fn asked_to_control<'a>(alloc: Global, matches: &ArgMatches<'a>) -> Result<Ask<'a>, WordFault>
    ensures asked { IfOk result (IsAskedBy (codes "control") (rows_of (found_of matches.now))) }
    ensures fault { IfErr result
        (AsksNothing (Some (codes "control", rows_of (found_of matches.now)))) }
{
    Ok(Ask::Control(request_of(alloc, matches)?))
}

/// What the words of `audit` ask for.
fn asked_to_audit<'a>(alloc: Global, matches: &ArgMatches<'a>) -> Result<Ask<'a>, WordFault>
    ensures asked { IfOk result (IsAskedBy (codes "audit") (rows_of (found_of matches.now))) }
    ensures fault { IfErr result
        (AsksNothing (Some (codes "audit", rows_of (found_of matches.now)))) }
{
    Ok(Ask::Audit(audit_of(alloc, matches)?))
}

/// What the words of `usage` ask for.
fn asked_for_usage<'a>(alloc: Global, matches: &ArgMatches<'a>) -> Result<Ask<'a>, WordFault>
    ensures asked { IfOk result (IsAskedBy (codes "usage") (rows_of (found_of matches.now))) }
    ensures fault { IfErr result
        (AsksNothing (Some (codes "usage", rows_of (found_of matches.now)))) }
{
    Ok(Ask::Usage(usage_of(alloc, matches)?))
}

/// What a command and its words ask for.
fn asked_by<'a>(alloc: Global, name: &str, matches: &ArgMatches<'a>) -> Result<Ask<'a>, WordFault>
    ensures asked { IfOk result (IsAskedBy name.now (rows_of (found_of matches.now))) }
    ensures fault { IfErr result (AsksNothing (Some (name.now, rows_of (found_of matches.now)))) }
{
    match name {
        "check" => asked_to_check(alloc, matches),
        "replay" => asked_to_replay(matches),
        "send" => asked_to_send(alloc, matches),
        "serve" => asked_to_serve(alloc, matches),
        "control" => asked_to_control(alloc, matches),
        "audit" => asked_to_audit(alloc, matches),
        "usage" => asked_for_usage(alloc, matches),
        _ => Ok(Ask::Question(question_of(alloc, name, matches)?)),
    }
}

/// What a parse of the words asks for.
fn asked_of<'a>(alloc: Global, matches: &ArgMatches<'a>) -> Result<Ask<'a>, WordFault>
    ensures asked { IfOk result (IsAsked (subcommand_rows_of matches.now)) }
    ensures fault { IfErr result (AsksNothing (subcommand_rows_of matches.now)) }
{
    match matches.subcommand() {
        Some((name, inner)) => asked_by(alloc, name, inner),
        None => Ok(Ask::Input),
    }
}

/// Why words that `clap` reads ask for nothing, with the text for the user.
fn why_nothing(
    alloc: Global,
    command: &mut Command,
    fault: &WordFault,
) -> Result<Unread, AllocError>
    ensures { IfOk result (IsUnreadFor fault.now) }
{
    if let WordFault::Memory = fault {
        return Ok(Unread::Memory);
    }
    let why = format!(in alloc; "{fault}")?;
    let error = command.error(ErrorKind::ValueValidation, why.as_str())?;
    Ok(why_unread(alloc, &error))
}

/// Reads the words, of which the first is the program's name. `Shown` has the text of `--help` or
/// `--version` where they ask for that, `Refused` what is wrong and how the program is used.
pub fn read_words<'a>(alloc: Global, words: &'a [String]) -> Result<Ask<'a>, Unread>
    ensures asked { IfOk result (IsAsked
        (subcommand_of command_line (map string_bytes words.entry.now))) }
    ensures taken { IfOk result (λ _.
        fault_of command_line (map string_bytes words.entry.now) ≡ []) }
    ensures unread { IfErr result (IsUnread (map string_bytes words.entry.now)) }
{
    let mut command = command(alloc)?;
    let matches = match command.try_get_matches_from_mut(words) {
        Ok(matches) => matches,
        Err(error) => return Err(why_unread(alloc, &error)),
    };
    match asked_of(alloc, &matches) {
        Ok(asked) => Ok(asked),
        Err(fault) => Err(why_nothing(alloc, &mut command, &fault)?),
    }
}

/// The words that the program was started with, of which the first is its name. Answers `Refused` where one isn't UTF-8, since `clap`'s
/// words are text, and so are paths, and `Memory`.
pub fn words_of<R: Env + Alloc<A = Global>>(rt: &R) -> Result<Vec<String>, Unread>
    ensures { IfErr result HasNoWords }
{
    let alloc = rt.alloc();
    match std::env::args(rt) {
        Ok(words) => Ok(words.collect(alloc)?),
        Err(error) if error.kind() == io::ErrorKind::InvalidData => {
            let text = String::from_str(alloc, "error: a word isn't UTF-8\n")?;
            Err(Unread::Refused(text))
        }
        Err(_) => Err(Unread::Memory),
    }
}
