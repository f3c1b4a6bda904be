//! Connections that wait for their first line, or for a session.
//!
//! ```text
//!              accepted                first line whole            session free
//!   listener -----------> silent, begun ---------------> ready ------------------> handed on
//!                              |
//!                              +--- no room left: the oldest silent one is closed
//! ```
//!
//! One thread holds them, with no octet read: what came is looked at, and left for the session. Of a connection that a proxy has
//! brought its header alone is read, before all else is looked at: from then on it is a connection of whom the header names.
//!
//! All that a sender is for the server hangs on the connection before a session is asked for: its share of the sessions, its turn at the
//! desk, who is let in, and what it comes for by its first octet. So the header is taken off here, and from then on nothing in the server
//! knows that there was a proxy. It is peeked at until it is whole; then just its octets are read.

ghost use Rattle.std.specs.Prelude.{◌≡◌, ◌<◌, ◌-◌, ◌↔◌, ◌++◌, [], IsTrue, None, Some, codes, length};
ghost use Rattle.std.specs.Fmt.{decimal};

use crate::desk::Desk;
use crate::doorway::Doorway;
use crate::headers::{HeaderFault, HeaderWord};
use crate::throttle::{Closing, Throttle};
use crate::waiting_room::{Caller, Ready, Visit, WaitingRoom};
use log::{Log, warn};
use mio::unix::SourceFd;
use mio::{Events, Interest, Poll, Token, Waker};
use std::alloc::{AllocError, Global};
use std::fmt::Display;
use std::io::ErrorKind;
use std::net::{Net, SocketAddr, TcpListener, TcpStream};
use std::os::fd::{AsRawFd, RawFd};
use std::rt::Clock;
use std::sync::Wait;
use std::time::{Duration, Instant};
use std::{fmt, io};

/// The part of the program that logs what happens here, as the log names it.
const PART: &str = "server_edge::lobby";

/// The token of the listener.
const LISTENER: Token = Token(usize::MAX);

/// The token of whoever wakes the thread.
const WAKER: Token = Token(usize::MAX - 1);

/// How many events are looked at in one round, and how many connections are accepted.
const EVENTS: usize = 256;

/// How many connections the system keeps that aren't accepted yet.
const BACKLOG: i32 = 4_096;

/// The milliseconds until the next try where a connection couldn't be accepted.
const ACCEPT_PAUSE_MS: u64 = 100;

/// The longest wait of a round while headers of proxies are waited for, and the time between two looks at which are late, in
/// milliseconds.
const HEADER_LOOK_MS: u64 = 500;

/// Why a connection that waited is closed: for want of room, as N were by now.
#[derive(Clone, Copy)]
struct WantOfRoom(u64);

impl Display for WantOfRoom {
    ghost output = { λ why. Some (codes "closed without its first line for want of room, "
        ++ (decimal why.0 ++ codes " by now")) };

    fn fmt<W: fmt::Write>(&self, f: &mut fmt::Formatter<W>) -> fmt::Result {
        write!(
            f,
            "closed without its first line for want of room, {} by now",
            self.0
        )
    }
}

/// Logs what went wrong with what.
fn tell<R: Log, A: Display, B: Display>(rt: &R, what: &A, why: &B) {
    warn!(rt; target: PART, "{what}: {why}");
}

/// Connections that wait for their first line, or for a session.
#[derive(Drop)]
pub struct Lobby {
    listener: TcpListener,
    poll: Poll,
    events: Events,
    // The places of the guests of whom something came in this round, and whether no more comes.
    heard: Vec<(usize, bool)>,
    // How many connections are accepted yet.
    left: u64,
    accepted: u64,
    room: WaitingRoom,
    pause_ms: Option<u64>,
    closed: u64,
    doorway: Doorway,
    // Who was closed for want of room within a minute.
    crowded: Throttle,
    // When it was last looked at which headers are late.
    looked: Option<Instant>,
}

/// What a lobby listens at, and for whom.
#[derive(Drop)]
pub struct Listening {
    pub address: SocketAddr,
    /// How many connections may wait.
    pub places: u64,
    /// How many are accepted, those that may not come in too.
    pub connections: u64,
    /// Whether a connection waits for its first line before it is handed on. Where it doesn't, whoever takes it bounds how long that may take.
    pub awaits_lines: bool,
    pub doorway: Doorway,
}

impl Lobby {
    /// A lobby; what wakes its thread; and the listener's port. An error where the system doesn't give what it takes, or memory is
    /// refused.
    pub fn new<R: Net<Listener = TcpListener, Stream = TcpStream>>(
        rt: &R,
        alloc: Global,
        listening: Listening,
    ) -> io::Result<(Lobby, Waker, u16)> {
        let Listening {
            address,
            places,
            connections,
            awaits_lines,
            doorway,
        } = listening;
        let listener = TcpListener::bind(rt, address)?;
        let mut lobby = Lobby {
            listener,
            poll: Poll::new(rt)?,
            events: Events::with_capacity(alloc, EVENTS)?,
            heard: Vec::new(alloc),
            left: connections,
            accepted: 0,
            room: WaitingRoom::new(alloc, awaits_lines),
            // The first round accepts.
            pause_ms: Some(0),
            closed: 0,
            crowded: Throttle::new(alloc, Closing::WantOfRoom),
            doorway,
            looked: None,
        };
        let (waker, port) = lobby.open(places)?;
        Ok((lobby, waker, port))
    }

    /// Makes places, and has the system tell what comes at the listener. Answers what wakes the thread, and the listener's port.
    fn open(&mut self, places: u64) -> io::Result<(Waker, u16)> {
        self.room.grow(places)?;
        self.listener.set_nonblocking(true)?;
        let port = self.listener.local_addr()?.port();
        let descriptor = self.listener.as_raw_fd();
        // The standard library listens with a queue of 128 connections.
        let _ = libc::net::listen(descriptor, BACKLOG);
        self.watch(descriptor, LISTENER)?;
        let waker = Waker::new(self.poll.registry(), WAKER)?;
        Ok((waker, port))
    }

    /// Whether no connection is accepted any more and none waits.
    pub fn is_over(&self) -> bool
        ensures { IsTrue result ↔ (self.now.left ≡ 0)
            × (length self.now.room.free.items ≡ length self.now.room.callers.items) }
    {
        self.left == 0 && self.room.free.len() == self.room.callers.len()
    }

    /// How many connections wait.
    pub fn waiting(&self) -> u64
        ensures { result ≡ length self.now.room.callers.items - length self.now.room.free.items }
    {
        self.room.callers.len().saturating_sub(self.room.free.len()) as u64
    }

    /// The descriptor at which there is something to read once a round would find something: for a thread that waits for more than the
    /// lobby.
    pub fn descriptor(&self) -> RawFd {
        self.poll.as_raw_fd()
    }

    /// Accepts no connection any more, and closes those that wait.
    pub fn close(&mut self, alloc: Global)
        ensures left { self.new.left ≡ 0 }
        ensures none { (self.new.room.callers.items ≡ []) × (self.new.room.free.items ≡ []) }
    {
        self.left = 0;
        self.room = WaitingRoom::new(alloc, self.room.awaits_lines);
    }

    /// Takes a guest out of its place.
    fn release(&mut self, at: usize) -> Option<Caller> {
        let caller = self.room.release(at)?;
        let descriptor = caller.stream.as_raw_fd();
        // Nothing happens where the system isn't asked about it.
        let _ = self.poll.registry().deregister(&mut SourceFd(&descriptor));
        Some(caller)
    }

    /// Where no place is free, the oldest connection without its first line is closed.
    fn make_place<R: Clock + Log>(&mut self, rt: &R) {
        let Some(at) = self.room.who_makes_place() else {
            return;
        };
        if let Some(caller) = self.release(at) {
            let (peer, host) = (caller.peer, caller.host());
            drop(caller);
            self.closed = self.closed.saturating_add(1);
            let why = WantOfRoom(self.closed);
            self.crowded.close(rt, peer, host, &why);
        }
    }

    /// Closes a connection whose address isn't let in.
    fn turn_away<R: Clock + Log>(&mut self, rt: &R, caller: Caller) {
        let (peer, host) = (caller.peer, caller.host());
        drop(caller);
        self.doorway
            .refused
            .close(rt, peer, host, &"its address isn't let in");
    }

    /// Closes the connection at a place for its header.
    fn close_for<R: Log>(&mut self, rt: &R, at: usize, fault: HeaderFault) {
        if let Some(caller) = self.release(at) {
            let peer = caller.peer;
            drop(caller);
            tell(rt, &peer, &fault);
        }
    }

    /// Reads the header of the guest at a place, if it is whole. Whom it names is let in as one who comes without a proxy, and the
    /// proxy itself in any case. Whether what is behind it may be looked at; where the guest is closed, nothing is.
    fn is_named<R: Clock + Log>(&mut self, rt: &R, at: usize, is_ended: bool) -> Option<bool> {
        match self.room.read_header(at, is_ended) {
            HeaderWord::Waits => return Some(false),
            HeaderWord::Itself(_) => return Some(true),
            HeaderWord::From(..) => {
                let peer = self.room.peer_at(at)?;
                if self.doorway.lets_in(peer) {
                    return Some(true);
                }
                let caller = self.release(at)?;
                self.turn_away(rt, caller);
            }
            HeaderWord::Nothing => {
                self.release(at);
            }
            HeaderWord::Fault(fault) => self.close_for(rt, at, fault),
        }
        None
    }

    /// Looks at what a guest has sent. Whether it is ready, or gone.
    fn look<R: Clock + Log>(
        &mut self,
        rt: &R,
        at: usize,
        is_ended: bool,
    ) -> Result<bool, AllocError> {
        if self.room.awaits_header(at) {
            match self.is_named(rt, at, is_ended) {
                Some(true) => (),
                Some(false) => return Ok(false),
                None => return Ok(true),
            }
        }
        self.room.look(at, is_ended)
    }

    /// Closes the connections whose headers haven't come in time, some time after the last look at which these are.
    fn close_late<R: Clock + Log>(&mut self, rt: &R) {
        if self.room.headers == 0 {
            return;
        }
        let Ok(now) = Instant::now(rt) else {
            return;
        };
        let pause = Duration::from_millis(HEADER_LOOK_MS);
        if self
            .looked
            .is_some_and(|looked| now.duration_since(looked) < pause)
        {
            return;
        }
        self.looked = Some(now);
        let mut from = 0;
        for _ in 0..self.room.callers.len() {
            let Some(at) = self.room.late_from(from, now) else {
                break;
            };
            self.close_for(rt, at, HeaderFault::Late);
            from = at.saturating_add(1);
        }
    }

    /// Gives a connection that was accepted a place, and looks at what it has sent; or closes it,
    /// where its address isn't let in. That of a proxy is let in until its header is read.
    fn admit<R: Clock + Log>(&mut self, rt: &R, caller: Caller) -> Result<(), AllocError> {
        self.left = self.left.saturating_sub(1);
        let (descriptor, peer) = (caller.stream.as_raw_fd(), caller.peer);
        let mut awaited = None;
        if self.doorway.is_proxy(peer) {
            match Instant::now(rt) {
                Ok(now) => awaited = Some(now),
                Err(error) => {
                    tell(rt, &peer, &error);
                    return Ok(());
                }
            }
        } else if !self.doorway.lets_in(peer) {
            self.turn_away(rt, caller);
            return Ok(());
        }
        self.accepted = self.accepted.saturating_add(1);
        self.make_place(rt);
        let Some(at) = self.room.settle(self.accepted, caller, awaited)? else {
            return Ok(());
        };
        if self.look(rt, at, false)? {
            return Ok(());
        }
        if let Err(error) = self.watch(descriptor, Token(at)) {
            tell(rt, &peer, &error);
            self.release(at);
        }
        // What came between the look and the watch is seen by a second look.
        self.look(rt, at, false)?;
        Ok(())
    }

    /// Has the system tell what comes under a descriptor.
    fn watch(&self, descriptor: RawFd, token: Token) -> io::Result<()> {
        self.poll
            .registry()
            .register(&mut SourceFd(&descriptor), token, Interest::READABLE)
    }

    /// Accepts what waits at the listener, `EVENTS` connections at most. Answers after how many milliseconds it accepts again at
    /// the latest; None where the system tells when.
    fn accept<R: Clock + Log>(&mut self, rt: &R) -> Result<Option<u64>, AllocError> {
        for _ in 0..EVENTS {
            if self.left == 0 {
                return Ok(None);
            }
            if !self.room.has_room() {
                // All are ready: there is room once one was handed on.
                return Ok(Some(ACCEPT_PAUSE_MS));
            }
            match self.listener.accept() {
                Ok((stream, peer)) => self.admit(rt, Caller { stream, peer })?,
                Err(error) if error.kind() == ErrorKind::WouldBlock => return Ok(None),
                Err(error) => {
                    tell(rt, &"a connection wasn't accepted", &error);
                    return Ok(Some(ACCEPT_PAUSE_MS));
                }
            }
        }
        Ok(Some(0))
    }

    /// The next connection for which a session is free: one that brings no job, or else a job, where jobs are let in. Its stream is
    /// as it was accepted, with no octet read.
    pub fn next<R: Wait>(&mut self, rt: &R, desk: &Desk, lets_jobs_in: bool) -> Option<Visit> {
        let mut ready = desk.first_free(rt, &mut self.room.others);
        if ready.is_none() && lets_jobs_in {
            ready = desk.first_free(rt, &mut self.room.jobs);
            if ready.is_none() && self.left == 0 {
                let last = self.room.last_guest()?;
                ready = desk.is_free(rt, last).then_some(last);
            }
        }
        let Ready { at, purpose, .. } = ready?;
        let caller = self.release(at)?;
        Some(caller.coming_for(purpose))
    }

    /// The connection that has been ready for the longest time, whatever it comes for: where one thread serves them all. Its stream is
    /// as it was accepted, with no octet read.
    pub fn next_ready(&mut self) -> Option<Visit>
        ensures none { self.old.room.others.items ≡ [] → self.old.room.jobs.items ≡ []
            → result ≡ None }
    {
        let mut ready = self.room.others.pop_front();
        if ready.is_none() {
            ready = self.room.jobs.pop_front();
        }
        let Ready { at, purpose, .. } = ready?;
        let caller = self.release(at)?;
        Some(caller.coming_for(purpose))
    }

    /// Whether a job waits for a session.
    pub fn has_job(&self) -> bool
        ensures { IsTrue result ↔ 0 < length self.now.room.jobs.items }
    {
        !self.room.jobs.is_empty()
    }

    /// One round: waits for something to happen, for `limit_ms` milliseconds at most where there is such a number, and accepts and
    /// looks at what came. An error where the system doesn't tell what happened, or memory is refused.
    pub fn round<R: Clock + Log + Wait>(
        &mut self,
        rt: &R,
        limit_ms: Option<u64>,
    ) -> io::Result<()> {
        let pause_ms = self.pause_ms.unwrap_or(u64::MAX);
        let pause_ms = pause_ms.min(limit_ms.unwrap_or(u64::MAX));
        let pause_ms = pause_ms.min(self.doorway.refused.patience_ms());
        let pause_ms = pause_ms.min(self.crowded.patience_ms());
        let pause_ms = if self.room.headers > 0 {
            pause_ms.min(HEADER_LOOK_MS)
        } else {
            pause_ms
        };
        let patience = (pause_ms < u64::MAX).then_some(Duration::from_millis(pause_ms));
        self.poll.poll(&mut self.events, patience)?;
        self.doorway.refused.tell_again(rt);
        self.crowded.tell_again(rt);
        self.close_late(rt);
        let mut accepts = self.pause_ms.is_some();
        self.heard.clear();
        for event in self.events.iter() {
            let token = event.token();
            if token == LISTENER {
                accepts = true;
            } else if token != WAKER {
                let is_ended = event.is_read_closed() || event.is_error();
                self.heard.push((token.0, is_ended))?;
            }
        }
        for k in 0..self.heard.len() {
            if let Some((at, is_ended)) = self.heard.get(k).copied() {
                self.look(rt, at, is_ended)?;
            }
        }
        if accepts {
            self.pause_ms = self.accept(rt)?;
        }
        Ok(())
    }
}
