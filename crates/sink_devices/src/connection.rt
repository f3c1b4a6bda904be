//! A connection to a printer. It never blocks: what the printer sends is read and dropped while something is written, so that
//! neither waits for the other.

ghost use Rattle.std.specs.Prelude.{◌≤◌, length, IfOk};

use crate::readiness::{Readiness, wait_for};
use connection_lobby::{keep_asking, send_in_pieces};
use std::io;
use std::io::{Error, ErrorKind, Read, Write};
use std::net::{Net, Shutdown, SocketAddr, TcpStream};

/// About how many octets the system may keep that the printer hasn't taken: what counts as sent, and may be lost. By the system's own
/// choice megabytes of a job would count as printed at a printer that takes nothing.
const KEPT_OCTETS: u32 = 65_536;

/// After how many seconds of silence the system asks a printer whether it is there.
const KEEPALIVE_SECONDS: u8 = 60;

/// How many octets that the printer sends are dropped at once.
const PIECE_OCTETS: usize = 4_096;

/// How many such reads follow one another before something is written again.
const READS: u32 = 16;

/// A connection to a printer.
#[derive(Drop)]
pub(crate) struct PrinterConnection {
    stream: TcpStream,
    // Whether the printer may still send something.
    hears: bool,
}

/// Reads what has come, up to a bound, and drops it. Whether more may come: false once the printer has ended its sending.
fn drop_input(stream: &mut TcpStream) -> io::Result<bool> {
    let mut buffer = [0u8; PIECE_OCTETS];
    for _read in 0..READS {
        match stream.read(&mut buffer) {
            Ok(0) => return Ok(false),
            Ok(_) => {}
            Err(error) if error.kind() == ErrorKind::Interrupted => {}
            Err(error) if error.kind() == ErrorKind::WouldBlock => return Ok(true),
            Err(error) => return Err(error),
        }
    }
    Ok(true)
}

impl PrinterConnection {
    /// Asks the system for a connection to this address, and doesn't wait for it.
    pub(crate) fn begin<R: Net>(rt: &R, address: SocketAddr) -> io::Result<PrinterConnection> {
        Ok(PrinterConnection {
            stream: TcpStream::from(mio::net::TcpStream::connect(rt, address)?),
            hears: true,
        })
    }

    /// Whether the printer has accepted it, for which this waits for `limit_ms` milliseconds at most. An error where it can't
    /// be reached, or refuses.
    pub(crate) fn is_accepted(&self, limit_ms: u16) -> io::Result<bool> {
        let wanted = Readiness {
            reads: false,
            writes: true,
        };
        if !wait_for(&self.stream, wanted, limit_ms).writes {
            return Ok(false);
        }
        if let Some(error) = self.stream.take_error()? {
            return Err(error);
        }
        let _peer = self.stream.peer_addr()?;
        self.stream.set_nodelay(true)?;
        keep_asking(&self.stream, KEEPALIVE_SECONDS);
        send_in_pieces(&self.stream, KEPT_OCTETS);
        Ok(true)
    }

    /// Waits until the printer sends or takes something, for `limit_ms` milliseconds at most; drops what it sent, and writes
    /// octets from the head of the slice. Answers how many.
    ///
    /// WouldBlock where the printer took none.
    pub(crate) fn write(&mut self, octets: &[u8], limit_ms: u16) -> io::Result<usize>
        ensures { IfOk result (λ count. count ≤ length octets.now) }
    {
        let wanted = Readiness {
            reads: self.hears,
            writes: true,
        };
        let ready = wait_for(&self.stream, wanted, limit_ms);
        if ready.reads {
            self.hears = drop_input(&mut self.stream)?;
        }
        if ready.writes {
            return self.stream.write(octets);
        }
        Err(Error::from(ErrorKind::WouldBlock))
    }

    /// Tells the printer that nothing more is sent.
    pub(crate) fn end_sending(&mut self) -> io::Result<()> {
        self.stream.shutdown(Shutdown::Write)
    }

    /// Waits until the printer sends something or ends the connection, for `limit_ms` milliseconds at most, and drops what it
    /// sent. Whether the printer has ended it. An error where the connection failed.
    pub(crate) fn is_ended(&mut self, limit_ms: u16) -> io::Result<bool> {
        let wanted = Readiness {
            reads: true,
            writes: false,
        };
        if !wait_for(&self.stream, wanted, limit_ms).reads || drop_input(&mut self.stream)? {
            return Ok(false);
        }
        match self.stream.take_error()? {
            Some(error) => Err(error),
            None => Ok(true),
        }
    }
}
