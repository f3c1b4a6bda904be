//! Clients at a port of 127.0.0.1. None waits longer than thirty seconds.

ghost use Rattle.std.specs.Prelude.{IfSome, IsTrue, ◌≡◌};
ghost use Rattle.lpr_client.specs.Sendable.{is_sendable};

use libc::net::{AF_INET, SO_RCVBUF, SOCK_CLOEXEC, SOCK_STREAM, SOL_SOCKET, setsockopt, socket};
use lpr_client::{
    Control, DataFile, FileName, Octets, SendFault, is_sendable, job_bytes, send_job,
};
use os::FromRawFd;
use program_edge::{StreamReader, StreamWriter};
use std::alloc::Global;
use std::io::{Read, Write};
use std::net::{Ipv4Addr, Net, SocketAddr, TcpStream};
use std::time::Duration;

/// How many seconds a client waits for an octet.
pub const LIMIT_SECONDS: u64 = 30;

/// A connection to the port. None where nobody takes it.
pub fn connect<R: Net<Stream = TcpStream>>(rt: &R, port: u16) -> Option<TcpStream> {
    let address = SocketAddr::from((Ipv4Addr::LOCALHOST, port));
    let limit = Some(Duration::from_secs(LIMIT_SECONDS));
    let stream = TcpStream::connect(rt, address).ok()?;
    stream.set_nodelay(true).ok()?;
    stream.set_read_timeout(limit).ok()?;
    stream.set_write_timeout(limit).ok()?;
    Some(stream)
}

/// A connection to the port from a host, an address of loopback that ends in this number, which
/// says this. The system keeps little for it that it hasn't read. None where nobody takes it.
pub fn ask_from(host: u8, port: u16, line: &[u8]) -> Option<TcpStream> {
    let mut address = [0u8; 128];
    address[0] = AF_INET as u8;
    address[4] = 127;
    address[7] = host;
    let descriptor = unsafe { socket(AF_INET, SOCK_STREAM | SOCK_CLOEXEC, 0) };
    if descriptor < 0 {
        return None;
    }
    let stream = unsafe { TcpStream::from_raw_fd(descriptor) };
    let mut one = [0u8; 16];
    one[0] = 1;
    let set = unsafe { setsockopt(descriptor, SOL_SOCKET, SO_RCVBUF, &one, 4) };
    let bound = unsafe { libc::net::bind(descriptor, &address, 16) };
    let [high, low] = port.to_be_bytes();
    address[2] = high;
    address[3] = low;
    address[7] = 1;
    let connected = unsafe { libc::net::connect(descriptor, &address, 16) };
    if set != 0 || bound != 0 || connected != 0 {
        return None;
    }
    let limit = Some(Duration::from_secs(LIMIT_SECONDS));
    stream.set_read_timeout(limit).ok()?;
    write(&stream, line)?;
    Some(stream)
}

/// A job with all that it is sent with, for queue `lp`, by user ann at host h1.
struct Envelope {
    queue: Octets,
    name: FileName,
    control: Control,
    files: [DataFile; 1],
}

/// What the job of this number is sent with. None where that can't be sent, or memory is refused.
fn envelope_of(alloc: Global, number: u32, octets: &[u8]) -> Option<Envelope>
    ensures { IfSome result (λ envelope. IsTrue (is_sendable envelope.queue envelope.name envelope.control envelope.files)) }
{
    let of_control = format!(in alloc; "cfA{number:03}h1").ok()?;
    let of_data = format!(in alloc; "dfA{number:03}h1").ok()?;
    let text = format!(in alloc; "Hh1\nPann\nf{of_data}\n").ok()?;
    let name = FileName::read(of_control.as_bytes()).ok()?;
    let queue = Octets::copy_of(alloc, b"lp").ok()?;
    let control = Control::parse(alloc, &name, text.as_bytes()).ok()?;
    let files = [DataFile {
        name: FileName::read(of_data.as_bytes()).ok()?,
        octets: Octets::copy_of(alloc, octets).ok()?,
    }];
    let Ok(true) = is_sendable(alloc, &queue, &name, &control, files.as_slice()) else {
        return None;
    };
    Some(Envelope {
        queue,
        name,
        control,
        files,
    })
}

/// Sends the job of this number, with these octets. None where that can't be sent.
pub fn send(
    alloc: Global,
    stream: &TcpStream,
    number: u32,
    octets: &[u8],
) -> Option<Result<(), SendFault>> {
    let Envelope {
        queue,
        name,
        control,
        files,
    } = envelope_of(alloc, number, octets)?;
    Some(send_job(
        alloc,
        &mut StreamReader::new(stream),
        &mut StreamWriter::new(stream),
        &queue,
        &name,
        &control,
        files.as_slice(),
    ))
}

/// The octets that send the job of this number, with these octets. None where that can't be sent.
pub fn octets_of(alloc: Global, number: u32, octets: &[u8]) -> Option<Octets> {
    let Envelope {
        queue,
        name,
        control,
        files,
    } = envelope_of(alloc, number, octets)?;
    job_bytes(alloc, &queue, &name, &control, files.as_slice()).ok()
}

/// The line that asks for the queue.
const FIRST_LINE: usize = b"\x02lp\n".len();

/// Sends one job more over a connection over which one was sent, at once: the line that asks for
/// the queue stands once. None where it isn't taken.
pub fn send_more(alloc: Global, stream: &TcpStream, number: u32, octets: &[u8]) -> Option<()> {
    let octets = octets_of(alloc, number, octets)?;
    write(stream, octets.as_slice().get(FIRST_LINE..)?)?;
    is_answered(stream, &[0; 4])
}

/// Writes octets that no client of this protocol's would, or not so. None where they aren't taken.
pub fn write(stream: &TcpStream, octets: &[u8]) -> Option<()> {
    let mut stream = stream;
    stream.write_all(octets).ok()
}

/// The server answers exactly this. Else None.
pub fn is_answered(stream: &TcpStream, wanted: &[u8]) -> Option<()> {
    let mut stream = stream;
    for octet in wanted {
        let mut answer = [0xFF];
        let count = stream.read(&mut answer).ok()?;
        if count != 1 || answer[0] != *octet {
            return None;
        }
    }
    Some(())
}

/// The server ends the connection, and says nothing more. Else None.
pub fn is_ended(stream: &TcpStream) -> Option<()> {
    let mut stream = stream;
    match stream.read(&mut [0]) {
        Ok(0) => Some(()),
        _ => None,
    }
}

/// The server says nothing for a moment. Else None.
pub fn waits(stream: &TcpStream) -> Option<()> {
    let moment = Some(Duration::from_millis(300));
    stream.set_read_timeout(moment).ok()?;
    let mut reader = stream;
    if reader.read(&mut [0]).is_ok() {
        return None;
    }
    let limit = Some(Duration::from_secs(LIMIT_SECONDS));
    stream.set_read_timeout(limit).ok()
}
