//! A connection with one request and one response, taken up again each time its stream has octets or takes some: no call waits.
//!
//! ```text
//!               its head is whole, is refused,
//!                or hasn't come whole in 2 s           all have gone
//!   new --> Asking ----------------------> Answering --------------> Leaving --> over
//!                                              |                        |
//!                                              | 5 s, or the stream     | its peer ends, 16 KiB,
//!                                              | breaks: over           | or 0.8 s: over
//! ```
//!
//! How long it may be in a stage is `most_ms` (`stages`). Where there are too many, who has halted longest is over in any stage.

use crate::outgoing::Outgoing;
use crate::stages::ExchangeStage;
use libc::net::{POLLIN, POLLOUT};
use libc::types::pollfd;
use status_request::{Incoming, RequestReading};
use std::io;
use std::io::{ErrorKind, Read};
use std::net::{Shutdown, TcpStream};
use std::os::fd::AsRawFd;

/// How many octets that come after the request are passed over at once.
const PIECE_OCTETS: usize = 4_096;

/// How often they are, at most.
const MOST_PIECES: u32 = 4;

/// How far an exchange has come, with what it has for that.
#[derive(Drop)]
enum Course {
    /// What has come of the request.
    Asking(Incoming),
    /// What hasn't gone of the answer.
    Answering(Outgoing),
    /// How many pieces behind the request were passed over.
    Leaving(u32),
}

/// What a turn of an exchange gave.
#[derive(Clone, Copy)]
pub(crate) enum Turn {
    /// Nothing came or went.
    Halts,
    /// Octets came or went.
    Moves,
    /// The request is known: what it asks for, or `More` where no more comes of it.
    Asks(RequestReading),
    /// Its answer has gone.
    Leaves,
    /// Its connection is of no more use.
    Ends,
}

/// A connection with one request and one response.
#[derive(Drop)]
pub(crate) struct Exchange {
    stream: TcpStream,
    course: Course,
}

/// Whether a read or a write may be tried again later.
fn is_later(error: &io::Error) -> bool {
    matches!(error.kind(), ErrorKind::WouldBlock | ErrorKind::Interrupted)
}

/// Passes over a piece of what still comes.
fn pass_over(stream: &mut impl Read, passed: u32) -> Turn {
    let mut octets = [0u8; PIECE_OCTETS];
    match stream.read(&mut octets) {
        Ok(0) => Turn::Ends,
        Ok(_) if passed < MOST_PIECES => Turn::Moves,
        Err(error) if is_later(&error) => Turn::Halts,
        _ => Turn::Ends,
    }
}

impl Exchange {
    /// One of which no octet was read, with a stream that doesn't block.
    pub(crate) fn new(stream: TcpStream) -> Exchange {
        let course = Course::Asking(Incoming::new());
        Exchange { stream, course }
    }

    /// Takes it up: reads or writes once.
    pub(crate) fn turn(&mut self, name: &[u8]) -> Turn {
        let mut stream = &self.stream;
        match &mut self.course {
            Course::Asking(incoming) => match incoming.read_from(&mut stream) {
                Ok(0) => Turn::Asks(RequestReading::More),
                Ok(_) => match incoming.reading(name) {
                    RequestReading::More => Turn::Moves,
                    reading => Turn::Asks(reading),
                },
                Err(error) if is_later(&error) => Turn::Halts,
                Err(_) => Turn::Ends,
            },
            Course::Answering(outgoing) => match outgoing.write_to(&mut stream) {
                Ok(0) => Turn::Ends,
                Ok(_) if outgoing.is_gone() => Turn::Leaves,
                Ok(_) => Turn::Moves,
                Err(error) if is_later(&error) => Turn::Halts,
                Err(_) => Turn::Ends,
            },
            Course::Leaving(passed) => {
                *passed = passed.saturating_add(1);
                pass_over(&mut stream, *passed)
            }
        }
    }

    /// It is answered so from now on.
    pub(crate) fn answer(&mut self, response: String) {
        self.course = Course::Answering(Outgoing::new(response));
    }

    /// Ends its own sending: from now on what still comes is passed over. Whether the system does so.
    pub(crate) fn leave(&mut self) -> bool {
        self.course = Course::Leaving(0);
        self.stream.shutdown(Shutdown::Write).is_ok()
    }

    /// What the system is asked of it while it halts in this stage.
    pub(crate) fn awaited(&self, stage: ExchangeStage) -> pollfd {
        let events = match stage {
            ExchangeStage::Asking | ExchangeStage::Leaving => POLLIN,
            ExchangeStage::Answering => POLLOUT,
        };
        pollfd {
            fd: self.stream.as_raw_fd(),
            events,
            revents: 0,
        }
    }
}
