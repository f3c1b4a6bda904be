//! The exchanges that one thread has in hand, which goes over all of them in turn.

ghost use Rattle.std.specs.Prelude.{◌≡◌, ◌+◌, ◌≤◌, ℕ, IfOk, length};
ghost use Rattle.status_exchanges.specs.Exchanges.{AreWithin, without};
ghost use Rattle.status_exchanges.specs.declared.exchanges.TheConstants.{MOST_EXCHANGES};

use crate::exchange::{Exchange, Turn};
use crate::stages::{ExchangeStage, ExchangeStanding, count_at, is_due, longest_halted};
use libc::net::{POLLIN, poll};
use libc::types::pollfd;
use status_request::RequestReading;
use std::alloc::{AllocError, Global};
use std::marker::Model;
use std::net::TcpStream;
use std::os::fd::RawFd;

/// How many exchanges there are at most.
pub const MOST_EXCHANGES: usize = 128;

/// How many answers that haven't gone there are at most.
pub const MOST_ANSWERS: usize = 16;

/// For how many milliseconds it is waited at most for something to come or go, before it is looked at whose time is up.
const TURN_MS: i32 = 100;

/// What the system isn't asked of.
const NOTHING: pollfd = pollfd {
    fd: -1,
    events: 0,
    revents: 0,
};

/// The exchanges that one thread has in hand: never more than 128.
#[derive(Drop)]
pub struct Exchanges {
    open: Vec<Exchange>,
    // What is known of each, at the same place.
    standings: Vec<ExchangeStanding>,
}

impl Model for Exchanges {
    ghost Value = { ℕ };

    ghost view = { λ exchanges. length exchanges.open.items };

    ghost invariant = { λ it. AreWithin (length it.open.items) (length it.standings.items) };
}

impl Exchanges {
    /// None yet.
    pub fn new(alloc: Global) -> Exchanges
        ensures { result ≡ 0 }
    {
        Exchanges {
            open: Vec::new(alloc),
            standings: Vec::new(alloc),
        }
    }

    /// How many there are.
    pub fn count(&self) -> usize
        ensures { result ≡ self.now }
    {
        self.open.len()
    }

    /// Ends the exchange at a place, whose place the last one takes.
    pub fn end(&mut self, at: usize)
        ensures { self.new ≡ without at self.old }
    {
        if at < self.open.len() {
            self.open.swap_remove(at);
        }
        if at < self.standings.len() {
            self.standings.swap_remove(at);
        }
    }

    /// Begins one more, with a stream that doesn't block. Where there are too many, the one that has halted longest ends. Its place.
    ///
    /// AllocError where memory for it is refused.
    pub fn begin(&mut self, stream: TcpStream, now_ms: u64) -> Result<usize, AllocError>
        ensures last { IfOk result (λ at. self.new ≡ at + 1) }
        ensures bounded { self.new ≤ MOST_EXCHANGES }
    {
        if self.open.len() >= MOST_EXCHANGES {
            let longest = longest_halted(self.standings.as_slice(), None);
            self.end(longest.unwrap_or(0));
        }
        self.standings.push(ExchangeStanding {
            stage: ExchangeStage::Asking,
            since_ms: now_ms,
            moved_ms: now_ms,
        })?;
        let at = self.open.len();
        if self.open.push(Exchange::new(stream)).is_err() {
            self.standings.pop();
            return Err(AllocError);
        }
        Ok(at)
    }

    /// The exchange at a place has moved by now, or has come to this stage.
    fn note(&mut self, at: usize, stage: Option<ExchangeStage>, now_ms: u64)
        ensures { self.new ≡ self.old }
    {
        if let Some(standing) = self.standings.get_mut(at) {
            standing.moved_ms = now_ms;
            if let Some(stage) = stage {
                standing.stage = stage;
                standing.since_ms = now_ms;
            }
        }
    }

    /// Takes up the exchange at a place, for the server of this name. What it asks for, once that is known: `More` where its head hasn't
    /// come whole, and no more comes or its time is up. It waits for its answer then.
    pub fn turn(&mut self, at: usize, name: &[u8], now_ms: u64) -> Option<RequestReading>
        ensures { self.new ≤ self.old }
    {
        let turn = self.open.get_mut(at)?.turn(name);
        match turn {
            Turn::Asks(reading) => Some(reading),
            Turn::Leaves => {
                self.leave(at, now_ms);
                None
            }
            Turn::Ends => {
                self.end(at);
                None
            }
            Turn::Moves => {
                self.note(at, None, now_ms);
                self.end_late(at, now_ms)
            }
            Turn::Halts => self.end_late(at, now_ms),
        }
    }

    /// Ends the exchange at a place if its time is up; but where its head is awaited it is to be answered so: `More`.
    fn end_late(&mut self, at: usize, now_ms: u64) -> Option<RequestReading>
        ensures { self.new ≤ self.old }
    {
        let standing = *self.standings.get(at)?;
        if !is_due(&standing, now_ms) {
            return None;
        }
        if standing.stage == ExchangeStage::Asking {
            return Some(RequestReading::More);
        }
        self.end(at);
        None
    }

    /// The answer of the exchange at a place has gone.
    fn leave(&mut self, at: usize, now_ms: u64)
        ensures { self.new ≤ self.old }
    {
        self.note(at, Some(ExchangeStage::Leaving), now_ms);
        if let Some(exchange) = self.open.get_mut(at) {
            if !exchange.leave() {
                self.end(at);
            }
        }
    }

    /// Answers the exchange at a place, as much as is taken at once. Where too many answers haven't gone then, the one of these that has
    /// halted longest ends.
    pub fn answer(&mut self, at: usize, response: String, now_ms: u64)
        ensures { self.new ≤ self.old }
    {
        if let Some(exchange) = self.open.get_mut(at) {
            exchange.answer(response);
        }
        self.note(at, Some(ExchangeStage::Answering), now_ms);
        let _ = self.turn(at, b"".as_slice(), now_ms);
        let answering = ExchangeStage::Answering;
        if count_at(self.standings.as_slice(), answering) > MOST_ANSWERS {
            if let Some(at) = longest_halted(self.standings.as_slice(), Some(answering)) {
                self.end(at);
            }
        }
    }

    /// Waits for a moment until one of them may be taken up, or something comes at this descriptor.
    pub fn await_turn(&self, descriptor: RawFd) {
        let mut asked = [NOTHING; MOST_EXCHANGES + 1];
        asked[0] = pollfd {
            fd: descriptor,
            events: POLLIN,
            revents: 0,
        };
        for at in 0..MOST_EXCHANGES {
            if let (Some(exchange), Some(standing)) = (self.open.get(at), self.standings.get(at)) {
                asked[at + 1] = exchange.awaited(standing.stage);
            }
        }
        let _ = poll(&mut asked, TURN_MS);
    }
}
