//! The places of connections that wait, and in which order those that are ready are handed on.

ghost use Rattle.std.specs.Prelude.{◌≡◌, ◌≢◌, ◌++◌, ◌∷◌, [], IfSome, OnOk};
ghost use Rattle.std.specs.Net.Socket.{socket_ip};
ghost use Rattle.connection_lobby.specs.Hosts.{host_number};
ghost use Rattle.connection_lobby.specs.declared.first_line.Purpose.TheVariants.{Job};

use crate::first_line::{FIRST_LINE_OCTETS, Purpose, is_whole, purpose_of};
use crate::guests::{GuestStage, Guests};
use crate::headers::{HEADER_SECONDS, HeaderFault, HeaderWord, MOST_HEADER, read_word};
use crate::peers::{take_octets, unread_octets};
use std::alloc::{AllocError, Global};
use std::collections::VecDeque;
use std::mem;
use std::net::{IpAddr, Ipv4Addr, SocketAddr, TcpStream};
use std::time::Instant;

/// The number that stands for a host: the four octets of its address.
fn host_of(peer: SocketAddr) -> u32
    ensures { result ≡ host_number (socket_ip peer) }
{
    match peer.ip() {
        IpAddr::V4(address) => u32::from(address),
        IpAddr::V6(_) => 0,
    }
}

/// A connection that is handed on.
#[derive(Drop)]
pub struct Visit {
    /// The stream, which blocks.
    pub stream: TcpStream,
    /// Its peer: where a proxy has brought it, whom that names.
    pub peer: SocketAddr,
    /// What it comes for.
    pub purpose: Purpose,
}

impl Visit {
    /// The number that stands for its host: the four octets of its address.
    pub fn host(&self) -> u32
        ensures { result ≡ host_number (socket_ip self.now.peer) }
    {
        host_of(self.peer)
    }
}

/// A connection that waits: what it comes for is known once its first line is whole.
#[derive(Drop)]
pub(crate) struct Caller {
    pub(crate) stream: TcpStream,
    pub(crate) peer: SocketAddr,
}

impl Caller {
    /// The number that stands for its host: the four octets of its address.
    pub(crate) fn host(&self) -> u32
        ensures { result ≡ host_number (socket_ip self.now.peer) }
    {
        host_of(self.peer)
    }

    /// It comes for this, and is handed on.
    pub(crate) fn coming_for(self, purpose: Purpose) -> Visit
        ensures stream { result.stream ≡ self.stream }
        ensures peer { result.peer ≡ self.peer }
        ensures purpose { result.purpose ≡ purpose }
    {
        let Caller { stream, peer } = self;
        Visit {
            stream,
            peer,
            purpose,
        }
    }
}

/// A guest that is ready, as its first line is whole: its place, what it comes for, and its host.
#[derive(Clone, Copy)]
pub(crate) struct Ready {
    pub(crate) at: usize,
    pub(crate) purpose: Purpose,
    pub(crate) host: u32,
}

/// The places of connections that wait.
#[derive(Drop)]
pub(crate) struct WaitingRoom {
    // Those whose first line isn't whole.
    guests: Guests,
    // Whether they wait for their first lines: else each is ready as it comes.
    pub(crate) awaits_lines: bool,
    // The number of the guest at each place, by order of arrival.
    numbers: Vec<u64>,
    pub(crate) callers: Vec<Option<Caller>>,
    // Since when the header of a proxy is waited for, where it is, and for how many it is.
    awaited: Vec<Option<Instant>>,
    pub(crate) headers: usize,
    pub(crate) free: Vec<usize>,
    /// Those that are ready, by when they were: that bring a job, and that bring none.
    pub(crate) jobs: VecDeque<Ready>,
    pub(crate) others: VecDeque<Ready>,
}

/// How far a connection has come by what it has sent, which is left unread, and what it comes for.
fn stage_of(stream: &TcpStream, is_ended: bool) -> (GuestStage, Purpose) {
    let mut octets = [0u8; FIRST_LINE_OCTETS];
    let came = unread_octets(stream, &mut octets);
    let count = came.unwrap_or(0);
    let octets = &octets[..count];
    let stage = match count {
        _ if is_whole(octets, is_ended || came == Some(0)) => GuestStage::Ready,
        0 => GuestStage::Silent,
        _ => GuestStage::Begun,
    };
    (stage, purpose_of(octets.first().copied()))
}

impl WaitingRoom {
    /// No place.
    pub(crate) fn new(alloc: Global, awaits_lines: bool) -> WaitingRoom
        ensures { (result.callers.items ≡ []) × (result.free.items ≡ []) }
    {
        WaitingRoom {
            awaits_lines,
            guests: Guests::new(alloc),
            numbers: Vec::new(alloc),
            callers: Vec::new(alloc),
            awaited: Vec::new(alloc),
            headers: 0,
            free: Vec::new(alloc),
            jobs: VecDeque::new(alloc),
            others: VecDeque::new(alloc),
        }
    }

    /// Adds N places, all free. An error where memory is refused.
    pub(crate) fn grow(&mut self, places: u64) -> Result<(), AllocError> {
        for _ in 0..places {
            self.free.push(self.callers.len())?;
            self.numbers.push(0)?;
            self.callers.push(None)?;
            self.awaited.push(None)?;
        }
        Ok(())
    }

    /// Whether another connection may come in.
    pub(crate) fn has_room(&self) -> bool {
        !self.free.is_empty() || self.guests.who_leaves().is_some()
    }

    /// The place of the guest that leaves for another one; None where a place is free, or nobody leaves.
    pub(crate) fn who_makes_place(&self) -> Option<usize> {
        if self.free.is_empty() {
            self.guests.who_leaves()
        } else {
            None
        }
    }

    /// The first guest whose first line isn't whole, where nobody is ready, as one that brings a job. A session for all waits for
    /// its line as long as its peer may be silent. None while the header of a proxy is waited for.
    pub(crate) fn last_guest(&self) -> Option<Ready>
        ensures { IfSome result (λ ready. ready.purpose ≡ Job) }
    {
        if !self.jobs.is_empty() || !self.others.is_empty() {
            return None;
        }
        let at = self.guests.who_leaves()?;
        if self.awaits_header(at) {
            return None;
        }
        let Some(Some(caller)) = self.callers.get(at) else {
            return None;
        };
        Some(Ready {
            at,
            purpose: Purpose::Job,
            host: caller.host(),
        })
    }

    /// Gives a connection of this number a free place, which is answered, if there is one. Where it begins with a proxy's header, that is
    /// waited for since `awaited`. AllocError where memory is refused: then the place stays free.
    pub(crate) fn settle(
        &mut self,
        number: u64,
        caller: Caller,
        awaited: Option<Instant>,
    ) -> Result<Option<usize>, AllocError> {
        let Some(at) = self.free.last().copied() else {
            return Ok(None);
        };
        self.guests.enter(number, at)?;
        self.free.pop();
        self.await_header(at, awaited);
        if let Some(place) = self.callers.get_mut(at) {
            *place = Some(caller);
        }
        if let Some(place) = self.numbers.get_mut(at) {
            *place = number;
        }
        Ok(Some(at))
    }

    /// The peer of the guest at a place.
    pub(crate) fn peer_at(&self, at: usize) -> Option<SocketAddr> {
        match self.callers.get(at) {
            Some(Some(caller)) => Some(caller.peer),
            _ => None,
        }
    }

    /// Whether the header of the guest at a place is waited for.
    pub(crate) fn awaits_header(&self, at: usize) -> bool {
        matches!(self.awaited.get(at), Some(Some(_)))
    }

    /// The header of the guest at a place is waited for since this moment, or isn't any more.
    fn await_header(&mut self, at: usize, awaited: Option<Instant>) {
        let is_awaited = awaited.is_some();
        let Some(place) = self.awaited.get_mut(at) else {
            return;
        };
        let was_awaited = mem::replace(place, awaited).is_some();
        if is_awaited && !was_awaited {
            self.headers = self.headers.saturating_add(1);
        } else if was_awaited && !is_awaited {
            self.headers = self.headers.saturating_sub(1);
        }
    }

    /// The place of a guest whose header has been waited for too long by now, from this place on.
    pub(crate) fn late_from(&self, from: usize, now: Instant) -> Option<usize> {
        for at in from..self.awaited.len() {
            if let Some(since) = self.awaited[at] {
                if now.duration_since(since).as_secs() >= HEADER_SECONDS {
                    return Some(at);
                }
            }
        }
        None
    }

    /// Reads the header of the guest at a place, and nothing behind it, once it is whole: from then on the guest's peer is whom it
    /// names. What it says.
    pub(crate) fn read_header(&mut self, at: usize, is_ended: bool) -> HeaderWord {
        let Some(Some(caller)) = self.callers.get_mut(at) else {
            return HeaderWord::Nothing;
        };
        let mut octets = [0u8; MOST_HEADER];
        let came = unread_octets(&caller.stream, &mut octets);
        let count = came.unwrap_or(0);
        let word = read_word(&octets[..count], is_ended || came == Some(0));
        let length = match word {
            HeaderWord::From(_, _, length) | HeaderWord::Itself(length) => length,
            _ => return word,
        };
        let is_taken = match octets.get_mut(..length) {
            Some(header) => take_octets(&caller.stream, header),
            None => false,
        };
        if !is_taken {
            return HeaderWord::Fault(HeaderFault::Cut);
        }
        if let HeaderWord::From(address, port, _) = word {
            caller.peer = SocketAddr::from((Ipv4Addr::from(address), port));
        }
        self.await_header(at, None);
        word
    }

    /// Takes a guest out of its place.
    pub(crate) fn release(&mut self, at: usize) -> Option<Caller> {
        let caller = self.callers.get_mut(at)?.take()?;
        self.await_header(at, None);
        if let Some(number) = self.numbers.get(at) {
            self.guests.leave(*number);
        }
        // There is room, since a place was taken from it.
        let _ = self.free.push(at);
        Some(caller)
    }

    /// One more is ready, behind those that were before: jobs among jobs.
    fn line_up(&mut self, ready: Ready) -> Result<(), AllocError>
        ensures job { ready.purpose ≡ Job → OnOk result
            (self.new.jobs.items ≡ self.old.jobs.items ++ ready ∷ []) }
        ensures other { ready.purpose ≢ Job → OnOk result
            (self.new.others.items ≡ self.old.others.items ++ ready ∷ []) }
    {
        match ready.purpose {
            Purpose::Job => self.jobs.push_back(ready)?,
            Purpose::Short | Purpose::Listing => self.others.push_back(ready)?,
        }
        Ok(())
    }

    /// Looks at what a guest has sent, and leaves it unread. Whether it is ready.
    pub(crate) fn look(&mut self, at: usize, is_ended: bool) -> Result<bool, AllocError> {
        let (Some(number), Some(Some(caller))) = (self.numbers.get(at), self.callers.get(at)) else {
            return Ok(true);
        };
        let number = *number;
        if matches!(self.guests.stage(number), GuestStage::Ready) {
            return Ok(true);
        }
        let (stage, purpose) = if self.awaits_lines {
            stage_of(&caller.stream, is_ended)
        } else {
            (GuestStage::Ready, Purpose::Short)
        };
        let host = caller.host();
        match stage {
            GuestStage::Silent => {}
            GuestStage::Begun => self.guests.begin(number)?,
            GuestStage::Ready => {
                self.line_up(Ready { at, purpose, host })?;
                self.guests.leave(number);
                return Ok(true);
            }
        }
        Ok(false)
    }
}
