//! A control socket: one thread owns it, and goes round.
//!
//! Each command is one line of one spelling, and each answer ends with a line that says how, so an answer that was cut off is told apart.
//! Whoever may enter the socket's folder may use it, and `nc -U` can.

ghost use Rattle.std.specs.Prelude.{◌≡◌, [], false, IfOk, IsNone};
ghost use Rattle.std.specs.List.{list_any, position};
ghost use Rattle.control_socket.specs.Line.{is_line_feed};
ghost use Rattle.control_socket.specs.Talks.{is_asked_as};

use crate::accepting::Accepting;
use crate::partings::TalkNumber;
use crate::socket_file::{OpenFault, SocketFile};
use crate::stages::{Times, earlier};
use crate::talks::{MOST_TALKS, Talks};
use log::{Log, debug, warn};
use mio::unix::SourceFd;
use mio::{Events, Interest, Poll, Token, Waker};
use std::alloc::Global;
use std::fs::Files;
use std::io;
use std::io::ErrorKind;
use std::net::Net;
use std::os::fd::{AsRawFd, RawFd};
use std::os::unix::net::{UnixListener, UnixStream};
use std::time::{Clock, Duration, Instant};

/// The token of the listener. Those of connections are their numbers.
const LISTENER: Token = Token(usize::MAX);

/// The token of whoever wakes the thread.
const WAKER: Token = Token(usize::MAX - 1);

/// How many events are looked at at once.
const EVENTS: usize = 256;

/// How long the end waits for the lines of those who have connected, in milliseconds.
const HEARING_MS: u64 = 200;

/// A line that came, and its connection's number, under which it is answered.
#[derive(Drop)]
pub struct AskedLine {
    pub talk: TalkNumber,
    /// The line without its line feed.
    pub line: Vec<u8>,
    pub ghost one_line: { list_any is_line_feed line.items ≡ false },
}

/// What a part of a round brought.
#[derive(Drop)]
enum Brought {
    /// A line is whole.
    Line(AskedLine),
    /// Somebody has woken the thread, or the round's time is over.
    Over,
    /// Neither.
    Nothing,
}

/// Waits for events until a moment, each in milliseconds since the clock began, or without a limit. None came where a signal ended
/// the wait. An error where the system doesn't tell.
fn wait(poll: &mut Poll, events: &mut Events, now: u64, until: Option<u64>) -> io::Result<()> {
    let patience = until.map(|until| Duration::from_millis(until.saturating_sub(now)));
    poll.poll(events, patience)
}

/// A control socket as it was made.
#[derive(Drop)]
pub struct OpenedSocket {
    pub socket: ControlSocket,
    /// What wakes the socket's thread.
    pub waker: Waker,
    /// Its file, which whoever made it removes once the socket has ended.
    pub file: SocketFile,
}

/// A control socket: connections from this machine, each with one line and its answer.
#[derive(Drop)]
pub struct ControlSocket {
    listener: UnixListener,
    poll: Poll,
    events: Events,
    // The milliseconds of all else are counted from here.
    began: Instant,
    talks: Talks,
    // How long the end may last.
    end_ms: u64,
    accepting: Accepting,
    is_woken: bool,
}

impl ControlSocket {
    /// Makes the socket at this path with mode 0660. Its lines have `most_line` octets at most.
    ///
    /// A socket that is there and at which nobody answers is taken over: it is removed and made anew. One at which a server answers
    /// stays, and is `Answered`. What is there and is no socket stays: the fault is `System`, as where the system doesn't give what
    /// it takes, or memory is refused. There is no moment in which somebody may connect whom the mode keeps out.
    pub fn open<R: Clock + Files + Net>(
        rt: &R,
        alloc: Global,
        path: &str,
        most_line: usize,
        times: Times,
    ) -> Result<OpenedSocket, OpenFault>
        ensures nobody { IfOk result (λ opened. opened.socket.talks.list.items ≡ []) }
        ensures most_line { IfOk result (λ opened. opened.socket.talks.most_line ≡ most_line) }
        ensures times { IfOk result (λ opened. opened.socket.talks.times ≡ times) }
    {
        let poll = Poll::new(rt)?;
        let waker = Waker::new(poll.registry(), WAKER)?;
        let events = Events::with_capacity(alloc, EVENTS)?;
        let talks = Talks::new(alloc, most_line, times)?;
        let began = Instant::now(rt)?;
        let (file, listener) = SocketFile::make(rt, alloc, path)?;
        let socket = ControlSocket {
            listener,
            poll,
            events,
            began,
            talks,
            end_ms: times.end_ms,
            accepting: Accepting::WhenTold,
            is_woken: false,
        };
        match socket.watch(socket.listener.as_raw_fd(), LISTENER, Interest::READABLE) {
            Ok(()) => Ok(OpenedSocket {
                socket,
                waker,
                file,
            }),
            Err(error) => {
                file.remove(rt);
                Err(OpenFault::System(error))
            }
        }
    }

    /// Has the system tell what comes under a descriptor.
    fn watch(&self, descriptor: RawFd, token: Token, interest: Interest) -> io::Result<()> {
        self.poll
            .registry()
            .register(&mut SourceFd(&descriptor), token, interest)
    }

    /// The milliseconds since it was opened. An error where there is no clock.
    fn now_ms<R: Clock>(&self, rt: &R) -> io::Result<u64> {
        let elapsed = self.began.elapsed(rt)?.as_millis();
        Ok(u64::try_from(elapsed).unwrap_or(u64::MAX))
    }

    /// Gives a connection that was accepted a place, and looks at what it has sent.
    fn admit<R: Log>(&mut self, rt: &R, stream: UnixStream, now: u64) -> io::Result<()> {
        if let Some(left) = self.talks.make_place() {
            debug!(rt; "control socket: {left}");
        }
        let number = self.talks.next_number();
        let token = Token(number.0 as usize);
        stream.set_nonblocking(true)?;
        let interest = Interest::READABLE | Interest::WRITABLE;
        self.watch(stream.as_raw_fd(), token, interest)?;
        self.talks.admit(number, stream, now)?;
        if let Some(left) = self.talks.look(number, false) {
            debug!(rt; "control socket: {left}");
        }
        Ok(())
    }

    /// Accepts connections that wait, as many as there may be at once.
    fn accept<R: Log>(&mut self, rt: &R, now: u64) {
        for _ in 0..MOST_TALKS {
            self.accepting = Accepting::WhenRoom;
            if !self.talks.has_room() {
                return;
            }
            let accepted = match self.listener.accept() {
                Ok((stream, _)) => self.admit(rt, stream, now),
                Err(error) if error.kind() == ErrorKind::WouldBlock => {
                    self.accepting = Accepting::WhenTold;
                    return;
                }
                Err(error) => Err(error),
            };
            if let Err(error) = accepted {
                warn!(rt; "control socket: a connection wasn't accepted: {error}");
                self.accepting = Accepting::after_failure(now);
                return;
            }
        }
    }

    /// The millisecond at which something is due though nothing comes.
    fn next_due(&self, now: u64) -> Option<u64> {
        let accepts = self.accepting.due_at(self.talks.has_room(), now);
        earlier(accepts, self.talks.nearest_limit())
    }

    /// Waits for what comes, until something is due, and looks at it.
    fn look<R: Clock + Log>(&mut self, rt: &R, until: Option<u64>) -> io::Result<u64> {
        let now = self.now_ms(rt)?;
        self.talks.begin(now);
        let until = earlier(until, self.next_due(now));
        wait(&mut self.poll, &mut self.events, now, until)?;
        let now = self.now_ms(rt)?;
        for event in self.events.iter() {
            match event.token() {
                LISTENER => self.accepting = Accepting::WhenRoom,
                WAKER => self.is_woken = true,
                Token(number) => {
                    let is_gone = event.is_write_closed() || event.is_error();
                    if let Some(left) = self.talks.look(TalkNumber(number as u64), is_gone) {
                        debug!(rt; "control socket: {left}");
                    }
                }
            }
        }
        for _ in 0..MOST_TALKS {
            let Some(left) = self.talks.part_from_late(now) else {
                break;
            };
            debug!(rt; "control socket: {left}");
        }
        Ok(now)
    }

    /// Looks at what came, accepts, and tells what that brought.
    fn turn<R: Clock + Log>(&mut self, rt: &R, until: Option<u64>) -> io::Result<Brought> {
        let is_due = self.is_woken || self.talks.has_line();
        let now = self.look(rt, if is_due { Some(0) } else { until })?;
        if self.accepting.is_due(now) {
            self.accept(rt, now);
        }
        if let Some((talk, line)) = self.talks.next_line() {
            let line = line.into_octets();
            return Ok(Brought::Line(AskedLine { talk, line }));
        }
        if self.is_woken || until.is_some_and(|until| until <= now) {
            self.is_woken = false;
            return Ok(Brought::Over);
        }
        Ok(Brought::Nothing)
    }

    /// One round: waits until a line is whole, somebody wakes the thread, or `limit_ms` milliseconds have passed, and answers the
    /// next whole line with its connection's number, or else None. Lines that came at once are answered by the next rounds, at once,
    /// and a wake that came beside them by the one behind. A connection that has sent no whole line in time, or one that is too
    /// long, is closed; so is, where 64 are there and another one comes, the oldest that has sent no whole line.
    ///
    /// An error where the system doesn't tell what happened, or has no clock. No connection is lost by it.
    pub fn round<R: Clock + Log>(
        &mut self,
        rt: &R,
        limit_ms: Option<u64>,
    ) -> io::Result<Option<AskedLine>> {
        let now = self.now_ms(rt)?;
        let until = limit_ms.map(|limit| now.saturating_add(limit));
        for _ in 0..u64::MAX {
            match self.turn(rt, until)? {
                Brought::Line(asked) => return Ok(Some(asked)),
                Brought::Over => return Ok(None),
                Brought::Nothing => {}
            }
        }
        Ok(None)
    }

    /// Answers a connection, which is closed once the octets are written, or else `answer_ms` milliseconds after the next round began.
    /// It never waits: what isn't taken at once is written by the rounds. Nothing happens where the connection is gone or was answered.
    pub fn answer(&mut self, talk: TalkNumber, octets: Vec<u8>)
        ensures nobody { IsNone (position (is_asked_as talk.0) self.old.talks.list.items)
            → self.new.talks.list.items ≡ self.old.talks.list.items }
    {
        self.talks.answer(talk, octets);
    }

    /// Writes what is left of the answers, until this millisecond at the latest. An error where the system doesn't tell what
    /// happened, or has no clock.
    fn finish<R: Clock + Log>(&mut self, rt: &R) -> io::Result<()> {
        let until = self.now_ms(rt)?.saturating_add(self.end_ms);
        for _ in 0..u64::MAX {
            if self.talks.is_empty() || self.look(rt, Some(until))? >= until {
                break;
            }
        }
        Ok(())
    }

    /// Hears those who have connected by now: accepts them, and waits for their lines for `HEARING_MS` milliseconds at most. An error where the
    /// system doesn't tell what happened, or has no clock.
    fn hear<R: Clock + Log>(&mut self, rt: &R) -> io::Result<()> {
        let now = self.now_ms(rt)?;
        let until = now.saturating_add(HEARING_MS);
        for _ in 0..MOST_TALKS {
            if !self.talks.has_room() {
                break;
            }
            match self.listener.accept() {
                Ok((stream, _)) => self.admit(rt, stream, now)?,
                Err(_) => break,
            }
        }
        for _ in 0..u64::MAX {
            if !self.talks.has_asking() || self.look(rt, Some(until))? >= until {
                break;
            }
        }
        Ok(())
    }

    /// The end: hears those who have connected by now, answers all that have asked and aren't answered yet with these octets, writes what is left
    /// of answers for `end_ms` milliseconds at most, and closes all connections. Its file stays.
    pub fn end<R: Clock + Log>(self, rt: &R, octets: &[u8]) {
        let mut socket = self;
        let listener = socket.listener.as_raw_fd();
        // Nothing happens where the system isn't asked about it.
        let _ = socket.poll.registry().deregister(&mut SourceFd(&listener));
        socket.accepting = Accepting::WhenTold;
        // From here on who connects is told that no server answers, and nobody connects who isn't heard.
        let _ = libc::net::shutdown(listener, libc::net::SHUT_RDWR);
        if let Err(error) = socket.hear(rt) {
            warn!(rt; "control socket: its last lines weren't read: {error}");
        }
        socket.talks.answer_all(octets);
        if let Err(error) = socket.finish(rt) {
            warn!(rt; "control socket: its last answers weren't written: {error}");
        }
    }
}
