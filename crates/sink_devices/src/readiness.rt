//! PrinterWait for both directions of a socket.

use libc::net::{POLLERR, POLLHUP, POLLIN, POLLNVAL, POLLOUT, poll};
use libc::types::pollfd;
use std::net::TcpStream;
use std::os::fd::AsRawFd;

/// What a socket is ready for.
#[derive(Clone, Copy, Debug, PartialEq, Eq)]
pub(crate) struct Readiness {
    /// Something can be read, or the other side ended, or the connection failed.
    pub(crate) reads: bool,
    /// Something can be written, or the connection failed.
    pub(crate) writes: bool,
}

impl Readiness {
    /// Nothing.
    const NONE: Readiness = Readiness {
        reads: false,
        writes: false,
    };
}

/// Waits until the socket is ready for one of those that are asked for, for `limit_ms` milliseconds at most.
pub(crate) fn wait_for(stream: &TcpStream, wanted: Readiness, limit_ms: u16) -> Readiness {
    let read_events = if wanted.reads { POLLIN } else { 0 };
    let write_events = if wanted.writes { POLLOUT } else { 0 };
    let mut asked = [pollfd {
        fd: stream.as_raw_fd(),
        events: read_events | write_events,
        revents: 0,
    }];
    if poll(&mut asked, i32::from(limit_ms)) <= 0 {
        return Readiness::NONE;
    }
    let told = asked[0].revents;
    let failed = told & (POLLERR | POLLHUP | POLLNVAL) != 0;
    Readiness {
        reads: wanted.reads && (failed || told & POLLIN != 0),
        writes: wanted.writes && (failed || told & POLLOUT != 0),
    }
}
