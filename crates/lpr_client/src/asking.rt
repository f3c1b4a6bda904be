//! Asking a server a question, and handing on what it answers.

ghost use Rattle.std.specs.Prelude.{◌≡◌, ◌≢◌, ◌⊎◌, [], Err, IfErr, IfOk, OnOk};
ghost use Rattle.lpd_commands.specs.Ends.{Writes, WritesSome, one_more};
ghost use Rattle.lpr_client.specs.Asking.{BreaksSilence, HandsOn, HandsSomeOn, HasFailed, IsAsked};
ghost use Rattle.lpr_client.specs.Asking.{IsHandedOn, StopsAnswer, TookAll, TookOne, output_faults};
ghost use Rattle.lpr_client.specs.Asking.{with_server};
ghost use Rattle.lpr_client.specs.Sending.{reader_faults, writer_faults};
ghost use Rattle.lpr_client.specs.declared.asking.AskFault.TheVariants.{Output, Server};
ghost use Rattle.lpr_client.specs.declared.send.SendFault.TheVariants.{ReadFault, WriteFault};

use crate::send::SendFault;
use lpd_commands::{OctetFault, OctetRead, OctetWrite, write_all};
use thiserror::Error;

/// The least octet that can be a whole text. One below it alone is a refusal: 1 for good, 2 for now.
const SPACE: u8 = 32;

/// How many octets of an answer are read at once.
const PIECE: usize = 4_096;

/// How often an answer is read at most.
const READS: u64 = 4_294_967_295;

/// Why a question wasn't answered, or its answer wasn't handed on whole.
#[derive(Clone, Copy, Debug, PartialEq, Eq, Error)]
pub enum AskFault {
    /// The server didn't take the question, or its answer can't be read.
    #[error("{0}")]
    Server(SendFault),
    /// The answer can't be written.
    #[error("the answer can't be written")]
    Output,
}

impl From<SendFault> for AskFault {
    ghost from_gives = { λ cause fault. fault ≡ Server cause };

    fn from(fault: SendFault) -> AskFault {
        AskFault::Server(fault)
    }
}

/// Reads one octet, if there is one.
fn take_octet<R: OctetRead>(reader: &mut R) -> Result<Option<u8>, SendFault>
    ensures ok { IfOk result (λ octet. TookOne octet (R.left reader.old) (R.left reader.new)) }
    ensures err { IfErr result (λ fault. (fault ≡ ReadFault)
        × (R.left reader.new ≡ R.left reader.old)
        × (R.faults reader.new ≡ one_more (R.faults reader.old))) }
    ensures faults { OnOk result (R.faults reader.new ≡ R.faults reader.old) }
{
    let mut octet = [0u8];
    match reader.read(&mut octet) {
        Ok(0) => Ok(None),
        Ok(_) => Ok(Some(octet[0])),
        Err(OctetFault) => Err(SendFault::ReadFault),
    }
}

/// Writes some octets of an answer to the output.
fn write_on<O: OctetWrite>(output: &mut O, octets: &[u8]) -> Result<(), AskFault>
    ensures ok { OnOk result (Writes (O.written output.old) (O.written output.new) octets.now) }
    ensures err { IfErr result (λ fault. (fault ≡ Output)
        × WritesSome (O.written output.old) (O.written output.new) octets.now) }
    ensures faults { O.faults output.new ≡ output_faults result (O.faults output.old) }
{
    write_all(output, octets).or(Err(AskFault::Output))
}

/// Writes these octets and then all that is left to read, as it comes.
fn hand_on<R: OctetRead, O: OctetWrite>(
    reader: &mut R,
    head: &[u8],
    output: &mut O,
) -> Result<(), AskFault>
    ensures ok { OnOk result (HandsOn head.now (R.left reader.old) (R.left reader.new)
        (O.written output.old) (O.written output.new)) }
    ensures err { IfErr result (λ fault. ((fault ≡ Server ReadFault) ⊎ (fault ≡ Output))
        × HandsSomeOn head.now (R.left reader.old) (R.left reader.new) (O.written output.old)
        (O.written output.new)) }
    ensures read_fault { result ≡ Err (Server ReadFault) → HasFailed (R.faults reader.old)
        (R.faults reader.new) (R.left reader.old) (R.left reader.new) }
    ensures reads { R.faults reader.new ≢ R.faults reader.old → result ≡ Err (Server ReadFault) }
    ensures output_faults { O.faults output.new ≡ output_faults result (O.faults output.old) }
{
    write_on(output, head)?;
    let mut piece = [0u8; PIECE];
    for _ in 0..READS {
        let Ok(count) = reader.read(&mut piece) else {
            return Err(AskFault::Server(SendFault::ReadFault));
        };
        if count == 0 {
            return Ok(());
        }
        write_on(output, &piece[..count])?;
    }
    Err(AskFault::Server(SendFault::ReadFault))
}

/// Hands a text on, as it comes. Answers `Refused` for one octet alone that is below a space, and `Cut` for none.
fn hand_answer_on<R: OctetRead, O: OctetWrite>(
    reader: &mut R,
    output: &mut O,
) -> Result<(), AskFault>
    ensures ok { OnOk result (IsHandedOn (R.left reader.old) (R.left reader.new)
        (O.written output.old) (O.written output.new)) }
    ensures err { IfErr result (λ fault. StopsAnswer fault (R.left reader.old) (R.left reader.new)
        (O.written output.old) (O.written output.new)) }
    ensures fault { IfErr result (λ fault. fault ≢ Server WriteFault) }
    ensures read_fault { result ≡ Err (Server ReadFault) → HasFailed (R.faults reader.old)
        (R.faults reader.new) (R.left reader.old) (R.left reader.new) }
    ensures reads { R.faults reader.new ≢ R.faults reader.old → result ≡ Err (Server ReadFault) }
    ensures output_faults { O.faults output.new ≡ output_faults result (O.faults output.old) }
{
    let Some(first) = take_octet(reader)? else {
        return Err(AskFault::Server(SendFault::Cut));
    };
    if first >= SPACE {
        return hand_on(reader, &[first], output);
    }
    match take_octet(reader)? {
        Some(second) => hand_on(reader, &[first, second], output),
        None => Err(AskFault::Server(SendFault::Refused(first))),
    }
}

/// Writes the line of a question. Answers `WriteFault` where it can't be written.
fn write_line<W: OctetWrite>(writer: &mut W, line: &[u8]) -> Result<(), SendFault>
    ensures asked { IsAsked line.now result (W.written writer.old) (W.written writer.new) }
    ensures faults { W.faults writer.new ≡ writer_faults result (W.faults writer.old) }
    ensures fault { IfErr result (λ fault. fault ≡ WriteFault) }
{
    write_all(writer, line).or(Err(SendFault::WriteFault))
}

/// Asks a question that is answered by a text, a state or a removal, by its line with its LF, and writes the text to the
/// output as it comes (RFC 1179, sections 5.3 to 5.5).
///
/// # Errors
///
/// `Server` with `WriteFault` where the line can't be written; with `Cut` where the server ends the connection with no
/// octet, and `Refused` where it answers one alone that is below a space, 20 in hexadecimal: nothing is written at these;
/// with `ReadFault` where the answer can't be read to its end. `Output` where it can't be written.
pub fn ask<R: OctetRead, W: OctetWrite, O: OctetWrite>(
    reader: &mut R,
    writer: &mut W,
    line: &[u8],
    output: &mut O,
) -> Result<(), AskFault>
    ensures asked { IsAsked line.now (with_server result) (W.written writer.old)
        (W.written writer.new) }
    ensures ok { OnOk result (IsHandedOn (R.left reader.old) (R.left reader.new)
        (O.written output.old) (O.written output.new)) }
    ensures err { IfErr result (λ fault. StopsAnswer fault (R.left reader.old) (R.left reader.new)
        (O.written output.old) (O.written output.new)) }
    ensures read_fault { result ≡ Err (Server ReadFault) → HasFailed (R.faults reader.old)
        (R.faults reader.new) (R.left reader.old) (R.left reader.new) }
    ensures reads { R.faults reader.new ≢ R.faults reader.old → result ≡ Err (Server ReadFault) }
    ensures writer_faults { W.faults writer.new
        ≡ writer_faults (with_server result) (W.faults writer.old) }
    ensures output_faults { O.faults output.new ≡ output_faults result (O.faults output.old) }
{
    write_line(writer, line)?;
    hand_answer_on(reader, output)
}

/// Asks for what no octet is answered to, by its line with its LF: to start a queue's printers (RFC 1179, section 5.1).
///
/// # Errors
///
/// `WriteFault` where the line can't be written, `Refused` where the server answers an octet, and `ReadFault` where its
/// octets can't be read.
pub fn ask_silently<R: OctetRead, W: OctetWrite>(
    reader: &mut R,
    writer: &mut W,
    line: &[u8],
) -> Result<(), SendFault>
    ensures asked { IsAsked line.now result (W.written writer.old) (W.written writer.new) }
    ensures ok { OnOk result (TookAll (R.left reader.old) (R.left reader.new) []) }
    ensures err { IfErr result (λ fault. BreaksSilence fault (R.left reader.old)
        (R.left reader.new)) }
    ensures reader_faults { R.faults reader.new ≡ reader_faults result (R.faults reader.old) }
    ensures writer_faults { W.faults writer.new ≡ writer_faults result (W.faults writer.old) }
{
    write_line(writer, line)?;
    match take_octet(reader)? {
        None => Ok(()),
        Some(octet) => Err(SendFault::Refused(octet)),
    }
}
