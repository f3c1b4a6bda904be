//! What words ask a server for is asked, and its answer printed.

ghost use Rattle.std.specs.Prelude.{◌≡◌, ◌≢◌, IfErr};
ghost use Rattle.word_actions.specs.Order.{write_faults};
ghost use Rattle.word_actions.specs.Asking.{ComesTo, IsPut, Starts, Tells, sent_line};
ghost use Rattle.word_actions.specs.Status.{status_of};
ghost use Rattle.word_actions.specs.declared.fault.ActionFault.TheVariants.{Network};

use crate::fault::ActionFault;
use crate::files::print;
use crate::reasons::tell_reason;
use log::Log;
use lpd_commands::{Command, OctetRead, OctetWrite, write_command};
use lpr_client::{AskFault, ask, ask_silently};
use program_edge::{StreamReader, StreamWriter, tell_cause};
use program_words::{QueueQuestion, Server};
use std::alloc::Global;
use std::io;
use std::net::{Net, OpenStream, SocketAddr, TcpStream};

/// The address of a server with its port.
pub(crate) fn socket_of(server: Server) -> SocketAddr {
    SocketAddr::from((server.address, server.port))
}

/// Two ends of a connection to this address.
fn both_ends<R: Net>(rt: &R, address: SocketAddr) -> io::Result<(R::Stream, R::Stream)> {
    let stream = TcpStream::connect(rt, address)?;
    let again = stream.try_clone()?;
    Ok((stream, again))
}

/// Two ends of a connection to this address. Answers `Network` where it can't be reached; the log
/// is told why.
pub(crate) fn connect<R: Net + Log>(
    rt: &R,
    address: SocketAddr,
) -> Result<(R::Stream, R::Stream), ActionFault>
    ensures { IfErr result (λ fault. fault ≡ Network) }
{
    match both_ends(rt, address) {
        Ok(ends) => Ok(ends),
        Err(error) => {
            tell_cause(rt, &address, Some(error));
            Err(ActionFault::Network)
        }
    }
}

/// Asks to start printers by this line, and prints `started` once nothing was answered.
fn start_printers<R: OctetRead, W: OctetWrite, O: OctetWrite>(
    reader: &mut R,
    writer: &mut W,
    line: &[u8],
    output: &mut O,
) -> Result<(), ActionFault>
    ensures put { IsPut line.now result (W.written writer.old) (W.written writer.new) }
    ensures starts { Starts result (R.left reader.old) (R.left reader.new)
        (O.written output.old) (O.written output.new) }
    ensures write_fault { O.faults output.new ≡ write_faults (O.faults output.old) result }
    ensures fault { IfErr result (λ fault. status_of fault ≢ 1) }
{
    if let Err(fault) = ask_silently(reader, writer, line) {
        return Err(ActionFault::Send(fault));
    }
    print(output, b"started\n")?;
    Ok(())
}

/// Asks by this line for a text, and prints it as it comes.
fn print_answer<R: OctetRead, W: OctetWrite, O: OctetWrite>(
    reader: &mut R,
    writer: &mut W,
    line: &[u8],
    output: &mut O,
) -> Result<(), ActionFault>
    ensures put { IsPut line.now result (W.written writer.old) (W.written writer.new) }
    ensures tells { Tells result (R.left reader.old) (R.left reader.new)
        (O.written output.old) (O.written output.new) }
    ensures write_fault { O.faults output.new ≡ write_faults (O.faults output.old) result }
    ensures fault { IfErr result (λ fault. status_of fault ≢ 1) }
{
    match ask(reader, writer, line, output) {
        Ok(()) => Ok(()),
        Err(AskFault::Server(fault)) => Err(ActionFault::Send(fault)),
        Err(AskFault::Output) => Err(ActionFault::Run(lpd_script::Fault::WriteFile)),
    }
}

/// Asks a server for something of a queue over these ends, and prints what it answers, as it comes; where printers are
/// asked to start, to which nothing is answered, prints `started` at the end of the connection.
///
/// # Errors
///
/// `Send` as `ask` and `ask_silently` of `lpr_client` answer, `WriteFile` where the output can't be written, and `Memory`,
/// before anything is written or read.
pub fn ask_queue<R: OctetRead, W: OctetWrite, O: OctetWrite>(
    alloc: Global,
    reader: &mut R,
    writer: &mut W,
    command: &Command,
    output: &mut O,
) -> Result<(), ActionFault>
    ensures put { IsPut (sent_line command.now) result (W.written writer.old)
        (W.written writer.new) }
    ensures comes { ComesTo command.now result (R.left reader.old) (R.left reader.new)
        (O.written output.old) (O.written output.new) }
    ensures write_fault { O.faults output.new ≡ write_faults (O.faults output.old) result }
    ensures fault { IfErr result (λ fault. status_of fault ≢ 1) }
{
    let line = write_command(alloc, command)?;
    match command {
        Command::PrintWaiting { .. } => start_printers(reader, writer, line.as_slice(), output),
        Command::Receive { .. } | Command::State { .. } | Command::Remove { .. } => {
            print_answer(reader, writer, line.as_slice(), output)
        }
    }
}

/// Asks the server of a question, as `ask_queue` does. Answers `Network` where it can't be reached. The log is told why
/// the connection failed.
pub(crate) fn ask_question<R: Net + Log, O: OctetWrite>(
    alloc: Global,
    rt: &R,
    question: &QueueQuestion,
    output: &mut O,
) -> Result<(), ActionFault>
    ensures write_fault { O.faults output.new ≡ write_faults (O.faults output.old) result }
    ensures fault { IfErr result (λ fault. status_of fault ≢ 1) }
{
    let address = socket_of(question.server);
    let (reader, writer) = connect(rt, address)?;
    let (mut reader, mut writer) = (StreamReader::new(reader), StreamWriter::new(writer));
    let end = ask_queue(alloc, &mut reader, &mut writer, &question.command, output);
    tell_cause(rt, &address, reader.cause().or(writer.cause()));
    if let Err(ActionFault::Send(fault)) = &end {
        tell_reason(rt, address, fault);
    }
    end
}
