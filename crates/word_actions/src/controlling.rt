//! A command is sent to a server's control socket, and its answer printed.

ghost use Rattle.std.specs.Prelude.{◌≡◌, ◌≢◌, ◌⊎◌, Err, IfErr, IfOk, IfSome, OnOk, Some};
ghost use Rattle.control_lines.specs.Answers.{end_words};
ghost use Rattle.lpd_commands.specs.Ends.{one_more};
ghost use Rattle.lpd_script.specs.Streams.{HasGivenAll, IsUnread, IsUntouched};
ghost use Rattle.word_actions.specs.Controlling.{GivesNoEnd, IfNetwork, IfUnprinted, IsCutOff, IsPrinted, IsRefusal};
ghost use Rattle.word_actions.specs.Controlling.{IsSent, IsToldAt, control_status, control_text, end_line};
ghost use Rattle.word_actions.specs.Controlling.{patience_seconds, result_status, write_faults};
ghost use Rattle.word_actions.specs.declared.controlling.ControlFault.TheVariants.{Memory, Network, WriteFile};
ghost use Rattle.program_edge.specs.Told.{IsTold};

use control_lines::{AnswerEnd, ControlCommand, read_answer};
use control_socket::{Waiting, connect_unix};
use log::{Log, info};
use lpd_commands::{OctetRead, OctetWrite, write_all};
use lpd_script::read_all;
use program_edge::{FaultName, StreamReader, StreamWriter, tell, tell_cause};
use program_words::ControlRequest;
use std::alloc::{AllocError, Global};
use std::fmt;
use std::io::{self, Error, ErrorKind};
use std::net::Net;
use std::os::unix::net::UnixStream;
use std::time::Duration;

/// The part of the program that tells the log that a server didn't answer in time, by which a log can choose its lines.
pub(crate) const PART: &str = "lpd_words::controlling";

/// For how many seconds a server may take no connection, take nothing of a line or say nothing before it counts as one that doesn't answer.
const PATIENCE_SECONDS: u64 = 10;

/// Why a command wasn't carried out.
#[derive(Debug, Drop)]
pub enum ControlFault<'a> {
    /// The server refused it for this, which is one line.
    Refused(String),
    /// The server knows no such command.
    Unknown,
    /// Nobody answers at this path, or not to the end.
    Network(&'a str),
    /// Memory was refused.
    Memory,
    /// The answer can't be printed.
    WriteFile,
}

impl<'a> From<AllocError> for ControlFault<'a> {
    ghost from_gives = { λ _ fault. fault ≡ Memory };

    fn from(_error: AllocError) -> ControlFault<'a> {
        ControlFault::Memory
    }
}

impl fmt::Display for ControlFault<'_> {
    ghost output = { λ fault. Some (control_text fault) };

    fn fmt<W: fmt::Write>(&self, f: &mut fmt::Formatter<W>) -> fmt::Result {
        match self {
            ControlFault::Refused(text) => write!(f, "fault 60 Refused {text}"),
            ControlFault::Unknown => f.write_str("fault 60 Refused unknown command"),
            ControlFault::Network(path) => write!(f, "{} {path}", FaultName::Network),
            ControlFault::Memory => write!(f, "{}", FaultName::Memory),
            ControlFault::WriteFile => write!(f, "{}", FaultName::WriteFile),
        }
    }
}

impl ControlFault<'_> {
    /// The exit status: 5 for a command that was refused, 4 for the rest.
    pub fn status(&self) -> u8
        ensures { result ≡ control_status self.now }
    {
        match self {
            ControlFault::Refused(_) | ControlFault::Unknown => 5,
            ControlFault::Network(_) | ControlFault::Memory | ControlFault::WriteFile => 4,
        }
    }
}

/// Sends a command, and reads the answer to its end. `Network` where the line can't be written or the answer can't be read,
/// and `Memory`.
fn answer_to<'a, R: OctetRead, W: OctetWrite>(
    alloc: Global,
    reader: &mut R,
    writer: &mut W,
    request: &ControlRequest<'a>,
) -> Result<Vec<u8>, ControlFault<'a>>
    ensures answer { IfOk result (λ answer.
        IsSent request.now.command (W.written writer.old) (W.written writer.new)
        × HasGivenAll (R.left reader.old) (R.left reader.new) answer.items) }
    ensures fault { IfErr result (λ fault. (fault ≡ Memory) ⊎ ((fault ≡ Network request.now.path)
        × ((W.faults writer.new ≡ one_more (W.faults writer.old))
        ⊎ (IsSent request.now.command (W.written writer.old) (W.written writer.new)
        × IsUnread (R.faults reader.old) (R.faults reader.new) (R.left reader.old) (R.left reader.new))))) }
{
    let line = request.command.line(alloc)?;
    if write_all(writer, line.as_slice()).is_err() {
        return Err(ControlFault::Network(request.path));
    }
    match read_all(alloc, reader) {
        Ok(answer) => Ok(answer),
        Err(lpd_script::Fault::Memory) => Err(ControlFault::Memory),
        Err(_) => Err(ControlFault::Network(request.path)),
    }
}

/// Why an answer that ends so carried nothing out; none where the command was carried out.
fn refusal_of(alloc: Global, end: &AnswerEnd) -> Result<Option<ControlFault<'static>>, AllocError>
    ensures { IfOk result (λ refusal. IsRefusal refusal (end_words end.now)) }
{
    Ok(match end {
        AnswerEnd::Done => None,
        AnswerEnd::Refused { text } => {
            Some(ControlFault::Refused(String::from_str(alloc, text)?))
        }
        AnswerEnd::Unknown => Some(ControlFault::Unknown),
    })
}

/// Sends a command to a server, reads its answer to the end, and prints what stands before the line that says how it ended.
///
/// # Errors
///
/// `Refused` and `Unknown` as that line says, once the rest is printed. `Network` where the command's line can't be written, the
/// answer can't be read, or it has no such line; `Memory`; nothing is printed at these two. `WriteFile` where what was answered
/// can't be printed.
pub fn ask_server<'a, R: OctetRead, W: OctetWrite, O: OctetWrite>(
    alloc: Global,
    reader: &mut R,
    writer: &mut W,
    request: &ControlRequest<'a>,
    output: &mut O,
) -> Result<(), ControlFault<'a>>
    ensures sent { IfSome (end_line result) (λ _.
        IsSent request.now.command (W.written writer.old) (W.written writer.new)) }
    ensures answered { IfSome (end_line result) (λ line. IsPrinted line
        (R.left reader.old) (R.left reader.new) (O.written output.old) (O.written output.new)) }
    ensures network { IfNetwork result (λ path. (path ≡ request.now.path)
        × ((W.faults writer.new ≡ one_more (W.faults writer.old))
        ⊎ (IsSent request.now.command (W.written writer.old) (W.written writer.new)
        × (IsUnread (R.faults reader.old) (R.faults reader.new) (R.left reader.old) (R.left reader.new)
        ⊎ GivesNoEnd (R.left reader.old) (R.left reader.new))))) }
    ensures quiet { IfUnprinted result (O.written output.new ≡ O.written output.old) }
    ensures write_fault { O.faults output.new ≡ write_faults (O.faults output.old) result }
    ensures cut_off { result ≡ Err WriteFile →
        IsSent request.now.command (W.written writer.old) (W.written writer.new)
        × IsCutOff (R.left reader.old) (R.left reader.new) (O.written output.old) (O.written output.new) }
{
    let answer = answer_to(alloc, reader, writer, request)?;
    let Some((before, end)) = read_answer(answer.as_slice()) else {
        return Err(ControlFault::Network(request.path));
    };
    let refusal = refusal_of(alloc, &end)?;
    if write_all(output, before).is_err() {
        return Err(ControlFault::WriteFile);
    }
    match refusal {
        None => Ok(()),
        Some(fault) => Err(fault),
    }
}

/// For how many seconds a server may say nothing once it has this command; none where it may take as long as it likes, since it
/// answers a stop at its own end.
fn patience(command: &ControlCommand) -> Option<u64>
    ensures { result ≡ patience_seconds command.now }
{
    match command {
        ControlCommand::Stop { .. } | ControlCommand::StopNow => None,
        _ => Some(PATIENCE_SECONDS),
    }
}

/// Two ends of a connection to the socket of a request, which waits for its place and for the writing of the line for `PATIENCE_SECONDS`
/// each, and for the answer as `patience` says.
fn both_ends<N: Net>(host: &N, request: &ControlRequest) -> io::Result<(UnixStream, UnixStream)> {
    let most = Waiting::For(Duration::from_secs(PATIENCE_SECONDS));
    let stream = connect_unix(host, request.path, most)?;
    if let Some(seconds) = patience(&request.command) {
        stream.set_read_timeout(Some(Duration::from_secs(seconds)))?;
    }
    let again = stream.try_clone()?;
    Ok((stream, again))
}

/// Tells the log why nobody answers at a path: for this cause, or since a limit of time is over.
fn tell_why<L: Log>(log: &L, path: &str, cause: Option<Error>) {
    match cause {
        Some(error) if error.kind() == ErrorKind::WouldBlock => {
            info!(log; target: PART, "{path}: no answer for {PATIENCE_SECONDS} s");
        }
        cause => tell_cause(log, &path, cause),
    }
}

/// Sends a command to the socket of its request, as `ask_server` does. The log is told why nobody answers.
fn ask_at<'a, N: AllocGlobal + Net, L: Log, O: OctetWrite>(
    host: &N,
    log: &L,
    request: &ControlRequest<'a>,
    output: &mut O,
) -> Result<(), ControlFault<'a>>
    ensures write_fault { O.faults output.new ≡ write_faults (O.faults output.old) result }
    ensures quiet { IfUnprinted result (O.written output.new ≡ O.written output.old) }
{
    let (reader, writer) = match both_ends(host, request) {
        Ok(ends) => ends,
        Err(error) => {
            tell_why(log, request.path, Some(error));
            return Err(ControlFault::Network(request.path));
        }
    };
    let (mut reader, mut writer) = (StreamReader::new(reader), StreamWriter::new(writer));
    let end = ask_server(host.alloc(), &mut reader, &mut writer, request, output);
    tell_why(log, request.path, reader.cause().or(writer.cause()));
    end
}

/// The exit status of an end. A fault is told.
fn ended<E: OctetWrite>(alloc: Global, end: Result<(), ControlFault>, faults: &mut E) -> u8
    ensures status { result ≡ result_status end.entry }
    ensures quiet { OnOk end.entry (IsUntouched (E.written faults.old) (E.faults faults.old)
        (E.written faults.new) (E.faults faults.new)) }
    ensures told { IfErr end.entry (λ fault. (E.faults faults.new ≡ one_more (E.faults faults.old))
        ⊎ IsTold (Some (control_text fault)) (E.written faults.old) (E.written faults.new)) }
{
    let Err(fault) = end else {
        return 0;
    };
    // There is nowhere else to tell of a fault here: the exit status says that there was one.
    let _ = tell(alloc, &fault, faults);
    fault.status()
}

/// Sends a command to the server whose control socket is at a path, prints its answer but for the last line, and tells `faults`
/// in a line what went wrong. The socket is reached by `host`, since a logger hands no Unix sockets on. Before a fault of the
/// network the log is told at INFO which path it is about, and why.
///
/// Answers the exit status: 0 where the command was carried out, 5 where the server refuses it or doesn't know it, and 4 for
/// memory, where the output can't be written, and where no server answers to the end: one that takes no connection, takes nothing
/// of the line or says nothing for 10 seconds doesn't, but a stop that it has is waited for.
pub fn control<N: AllocGlobal + Net, L: Log, O: OctetWrite, E: OctetWrite>(
    host: &N,
    log: &L,
    request: &ControlRequest,
    output: &mut O,
    faults: &mut E,
) -> u8
    ensures status { (result ≡ 0) ⊎ (result ≡ 4) ⊎ (result ≡ 5) }
    ensures write_fault { O.faults output.new ≢ O.faults output.old → result ≡ 4 }
    ensures quiet { result ≡ 0 → IsUntouched (E.written faults.old) (E.faults faults.old)
        (E.written faults.new) (E.faults faults.new) }
    ensures told { result ≢ 0 → (E.faults faults.new ≡ one_more (E.faults faults.old))
        ⊎ IsToldAt result (E.written faults.old) (E.written faults.new) }
{
    let end = ask_at(host, log, request, output);
    ended(host.alloc(), end, faults)
}
