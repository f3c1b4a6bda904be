//! Unix sockets are reached without waiting for ever: `connect` of the system waits while the backlog of the socket is full, as where
//! its process is stopped.
//!
//! No clause says which octets an address has, what the system answers, nor for how long it waits.

ghost use Rattle.std.specs.Prelude.{◌≤◌};

use libc::net::{_SS_SIZE, AF_UNIX, connect};
use program_edge::MOST_CONTROL_PATH;
use std::io;
use std::io::{Error, ErrorKind};
use std::net::Net;
use std::os::fd::AsRawFd;
use std::os::unix::net::UnixStream;
use std::time::Duration;

/// How often a connection that a signal interrupted is tried.
const TRIES: u32 = 1_000;

/// Where the path of an address begins, behind the family.
const PATH_AT: usize = 2;

/// For how long a connection waits for its place in the backlog.
#[derive(Clone, Copy, Debug, PartialEq, Eq)]
pub enum Waiting {
    /// Not at all.
    Never,
    /// For this long at most. A write to the connection waits for no longer either.
    For(Duration),
}

/// The address of a Unix socket, as C's `sockaddr_un` has it.
#[derive(Drop)]
struct UnixAddress {
    octets: [u8; _SS_SIZE],
    length: u32,
    ghost within: { length ≤ 128 },
}

/// The address of the socket at this path; none where the path is empty, has an octet 00, or is longer than an address has room for.
fn address_of(path: &str) -> Option<UnixAddress> {
    let path = path.as_bytes();
    if path.is_empty() || path.len() > MOST_CONTROL_PATH || path.contains(&0) {
        return None;
    }
    let mut octets = [0u8; _SS_SIZE];
    octets[..PATH_AT].copy_from_slice(&(AF_UNIX as u16).to_ne_bytes());
    octets[PATH_AT..PATH_AT + path.len()].copy_from_slice(path);
    // An octet 00 ends the path.
    let length = (PATH_AT + path.len() + 1) as u32;
    Some(UnixAddress { octets, length })
}

/// Connects to the Unix socket at a path.
///
/// # Errors
///
/// `WouldBlock` where its backlog had no place for so long, `InvalidInput` for a path that is no address, and the system's.
pub fn connect_unix<N: Net>(host: &N, path: &str, waiting: Waiting) -> io::Result<UnixStream> {
    let Some(address) = address_of(path) else {
        return Err(Error::from(ErrorKind::InvalidInput));
    };
    let stream = UnixStream::from(host.unix_socket()?);
    match waiting {
        Waiting::Never => stream.set_nonblocking(true)?,
        Waiting::For(limit) => stream.set_write_timeout(Some(limit))?,
    }
    for _ in 0..TRIES {
        if unsafe { connect(stream.as_raw_fd(), &address.octets, address.length) } == 0 {
            return Ok(stream);
        }
        let error = Error::from_raw_os_error(os::errno());
        if error.kind() != ErrorKind::Interrupted {
            return Err(error);
        }
    }
    Err(Error::from(ErrorKind::Interrupted))
}
