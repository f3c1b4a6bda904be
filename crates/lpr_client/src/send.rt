//! Sending a job, acknowledgement by acknowledgement.
//!
//! After a fault nothing more is written: a server aborts the job in hand when its connection ends, so no abort is sent.

ghost use Rattle.std.specs.Prelude.{IsTrue, ◌≡◌, ◌∷◌, [], length, map, OnOk, OnErr, IfErr};
ghost use Rattle.lpd_commands.specs.Ends.{MakesAtMost, one_more, Took, Writes, WritesSome};
ghost use Rattle.control_file.specs.Written.{control_text};
ghost use Rattle.control_file.specs.View.{contents};
ghost use Rattle.lpr_client.specs.Parts.{job_parts};
ghost use Rattle.lpr_client.specs.Shown.{part_octets};
ghost use Rattle.lpr_client.specs.Sendable.{is_sendable};
ghost use Rattle.lpr_client.specs.Sending.{AllSent, LacksOne, PartStops, Stops, StopsOrNot};
ghost use Rattle.lpr_client.specs.Sending.{part_reads, reader_faults, writer_faults};

use crate::file::DataFile;
use crate::part::{Part, parts_of};
use control_file::Control;
use lpd_commands::{FileName, OctetFault, OctetRead, OctetWrite, Octets, write_all};
use std::alloc::{AllocError, Global};
use thiserror::Error;

/// Why a job wasn't sent.
#[derive(Clone, Copy, Debug, PartialEq, Eq, Error)]
pub enum SendFault {
    /// The server answered with this octet in place of an acknowledgement: 1 for good, 2 for now.
    #[error("fault 60 Refused {0}")]
    Refused(u8),
    /// The server's octets ended where an acknowledgement was due.
    #[error("fault 61 Cut")]
    Cut,
    /// The server's octets can't be read.
    #[error("fault 62 ReadFault")]
    ReadFault,
    /// The octets of the job can't be written.
    #[error("fault 63 WriteFault")]
    WriteFault,
    /// Memory was refused.
    #[error("fault 12 Memory")]
    Memory,
}

/// Writes a part.
fn write_part<W: OctetWrite>(writer: &mut W, part: &Part) -> Result<(), OctetFault>
    ensures ok { OnOk result
        (Writes (W.written writer.old) (W.written writer.new) (part_octets part.now)
        × (W.faults writer.new ≡ W.faults writer.old)) }
    ensures err { OnErr result
        (WritesSome (W.written writer.old) (W.written writer.new) (part_octets part.now)
        × (W.faults writer.new ≡ one_more (W.faults writer.old))) }
{
    let (head, tail) = part.octets();
    write_all(writer, head)?;
    write_all(writer, tail)
}

/// Reads an octet, which has to be an acknowledgement.
fn read_acknowledgement<R: OctetRead>(reader: &mut R) -> Result<(), SendFault>
    ensures ok { OnOk result (Took (R.left reader.old) (R.left reader.new) (0 ∷ [])) }
    ensures err { IfErr result
        (λ fault. LacksOne fault (R.left reader.old) (R.left reader.new)) }
    ensures faults { R.faults reader.new ≡ reader_faults result (R.faults reader.old) }
    ensures reads { R.reads reader.new ≡ one_more (R.reads reader.old) }
{
    let mut octet = [0u8];
    match reader.read(&mut octet) {
        Ok(0) => Err(SendFault::Cut),
        Ok(_) if octet[0] == 0 => Ok(()),
        Ok(_) => Err(SendFault::Refused(octet[0])),
        Err(OctetFault) => Err(SendFault::ReadFault),
    }
}

/// Writes a part, and reads its acknowledgement.
fn send_part<R: OctetRead, W: OctetWrite>(
    reader: &mut R,
    writer: &mut W,
    part: &Part,
) -> Result<(), SendFault>
    ensures ok { OnOk result
        (Writes (W.written writer.old) (W.written writer.new) (part_octets part.now)
        × Took (R.left reader.old) (R.left reader.new) (0 ∷ [])) }
    ensures err { IfErr result
        (λ fault. PartStops fault (part_octets part.now) (R.left reader.old) (R.left reader.new)
        (W.written writer.old) (W.written writer.new)) }
    ensures reader_faults { R.faults reader.new ≡ reader_faults result (R.faults reader.old) }
    ensures writer_faults { W.faults writer.new ≡ writer_faults result (W.faults writer.old) }
    ensures reads { R.reads reader.new ≡ part_reads result (R.reads reader.old) }
{
    if write_part(writer, part).is_err() {
        return Err(SendFault::WriteFault);
    }
    read_acknowledgement(reader)
}

/// Sends the parts in order.
fn send_parts<R: OctetRead, W: OctetWrite>(
    reader: &mut R,
    writer: &mut W,
    parts: &[Part],
) -> Result<(), SendFault>
    ensures ok { OnOk result
        (AllSent (map part_octets parts.now) (R.left reader.old) (R.left reader.new)
        (W.written writer.old) (W.written writer.new)) }
    ensures err { IfErr result
        (λ fault. Stops fault (map part_octets parts.now) (R.left reader.old) (R.left reader.new)
        (W.written writer.old) (W.written writer.new)) }
    ensures reader_faults { R.faults reader.new ≡ reader_faults result (R.faults reader.old) }
    ensures writer_faults { W.faults writer.new ≡ writer_faults result (W.faults writer.old) }
    ensures reads { MakesAtMost (length (map part_octets parts.now))
        (R.reads reader.old) (R.reads reader.new) }
{
    for part in parts {
        send_part(reader, writer, part)?;
    }
    Ok(())
}

/// Sends a job, as `job_bytes` has its octets: writes up to each acknowledgement (RFC 1179, sections 5.2, 6.2 and 6.3),
/// reads it, and goes on where it is 00. Answers `Refused` for any other octet, `Cut` where the reader has ended,
/// `ReadFault` and `WriteFault` where the reader or the writer failed, and `Memory`, before anything is written.
pub fn send_job<R: OctetRead, W: OctetWrite>(
    alloc: Global,
    reader: &mut R,
    writer: &mut W,
    queue: &Octets,
    name: &FileName,
    control: &Control,
    files: &[DataFile],
) -> Result<(), SendFault>
    requires { IsTrue (is_sendable queue.now name.now control.now files.now) }
    ensures ok { OnOk result
        (AllSent (job_parts queue.now name.now (control_text (contents control.now)) files.now)
        (R.left reader.old) (R.left reader.new) (W.written writer.old) (W.written writer.new)) }
    ensures err { IfErr result (λ fault. StopsOrNot fault
        (job_parts queue.now name.now (control_text (contents control.now)) files.now)
        (R.left reader.old) (R.left reader.new) (W.written writer.old) (W.written writer.new)) }
    ensures reader_faults { R.faults reader.new ≡ reader_faults result (R.faults reader.old) }
    ensures writer_faults { W.faults writer.new ≡ writer_faults result (W.faults writer.old) }
    // It reads once for each part, at most.
    ensures reads { MakesAtMost
        (length (job_parts queue.now name.now (control_text (contents control.now)) files.now))
        (R.reads reader.old) (R.reads reader.new) }
{
    match parts_of(alloc, queue, name, control, files) {
        Ok(parts) => send_parts(reader, writer, parts.as_slice()),
        Err(AllocError) => Err(SendFault::Memory),
    }
}
