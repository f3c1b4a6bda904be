//! What sessions are at, for the thread that looks whether their peers are gone.
//!
//! Of a peer that closed and of one that only ended its sending the system tells the same until octets are written to it. So both are
//! judged by one rule: a job that waits for a page is ended only where what came and isn't used can't end its open file; that counts what
//! is in the socket, and of the last read what no page has. A broken connection ends it at once. The waiting session is answered that its
//! job isn't open, and ends as it would by any such answer: no contract of a session speaks of it.

ghost use Rattle.std.specs.Prelude.{◌≡◌, ◌<◌, ◌⊎◌, ◌-◌, ◌^◌, min, unwrap_or};

use crate::pace::Pace;
use connection_lobby::{Peer, PeerStanding, Visit, ask_peer, may_end, unread_octets};
use server_notes::{milliseconds, milliseconds_between};
use shared_spool::Waiting;
use std::alloc::{AllocError, Global};
use std::io;
use std::io::{Error, ErrorKind, Read};
use std::net::{Shutdown, SocketAddr, TcpStream};
use std::num::NonZeroU64;
use std::rt::Clock;
use std::sync::atomic::{AtomicU64, Ordering};
use std::sync::{Mutex, Wait};
use std::time::Instant;

/// A connection that is served.
#[derive(Drop)]
struct ServedConnection {
    stream: TcpStream,
    peer: SocketAddr,
    since: Instant,
}

/// What the session of a seat is at.
#[derive(Drop)]
struct Post {
    // The connection that it serves.
    served: Mutex<Option<ServedConnection>>,
    // How many octets it has read of that, and how many by the last read.
    received: AtomicU64,
    last: AtomicU64,
    // When the last of these reads ended, in milliseconds after the server's start, where that is noted.
    heard_ms: AtomicU64,
}

/// A peer that is served.
#[derive(Clone, Copy)]
pub struct ServedPeer {
    pub peer: SocketAddr,
    /// Since when.
    pub since: Instant,
    /// For how many seconds nothing has come of it.
    pub silent_seconds: u64,
}

/// What sessions are at, by the numbers of their seats.
#[derive(Drop)]
pub struct Posts {
    posts: Vec<Post>,
}

impl Posts {
    /// Posts for the first N seats. An error where memory is refused.
    pub fn new(alloc: Global, seats: usize) -> Result<Posts, AllocError> {
        let mut posts = Vec::new(alloc);
        for _seat in 0..seats {
            posts.push(Post {
                served: Mutex::new(None),
                received: AtomicU64::new(0),
                last: AtomicU64::new(0),
                heard_ms: AtomicU64::new(0),
            })?;
        }
        Ok(Posts { posts })
    }

    /// A session serves this connection, and reads it by the meter that is answered: without a
    /// number of octets a second no peer is too slow. Where the system gives no second number for the connection, its
    /// peer isn't looked at. When it is heard is noted from the server's start on, where that is given.
    pub fn begin<'a, R: Clock + Wait>(
        &'a self,
        rt: &'a R,
        seat: u32,
        visit: &'a Visit,
        slowest: Option<NonZeroU64>,
        start: Option<Instant>,
    ) -> Meter<'a, R> {
        let (stream, peer) = (&visit.stream, visit.peer);
        let post = self.posts.get(seat as usize);
        if let Some(post) = post {
            post.received.store(0, Ordering::SeqCst);
            post.last.store(0, Ordering::SeqCst);
            let since = Instant::now(rt);
            if let (Some(start), Ok(since)) = (start, since) {
                post.heard_ms
                    .store(milliseconds_between(start, since), Ordering::SeqCst);
            }
            let served = stream.try_clone().and_then(|stream| {
                Ok(ServedConnection {
                    stream,
                    peer,
                    since: since?,
                })
            });
            *post.served.lock(rt) = served.ok();
        }
        Meter {
            rt,
            stream,
            post,
            slowest,
            start,
            pace: Pace::NONE,
        }
    }

    /// A session has served its connection.
    pub fn end<R: Wait>(&self, rt: &R, seat: u32) {
        if let Some(post) = self.posts.get(seat as usize) {
            *post.served.lock(rt) = None;
        }
    }

    /// Ends all connections that are served: nothing more comes of them, and nothing more reaches their peers.
    pub fn hang_up<R: Wait>(&self, rt: &R) {
        for post in self.posts.iter() {
            if let Some(served) = &*post.served.lock(rt) {
                // A peer that is gone already needs no end.
                let _ = served.stream.shutdown(Shutdown::Both);
            }
        }
    }

    /// The peers that are served, those first that have been for the longest time. An error where memory for them is refused.
    pub fn served<R: Wait>(
        &self,
        rt: &R,
        alloc: Global,
        start: Instant,
        now: Instant,
    ) -> Result<Vec<ServedPeer>, AllocError> {
        let now_ms = milliseconds_between(start, now);
        let mut peers = Vec::new(alloc);
        for post in self.posts.iter() {
            if let Some(served) = &*post.served.lock(rt) {
                let heard_ms = post.heard_ms.load(Ordering::SeqCst);
                peers.push(ServedPeer {
                    peer: served.peer,
                    since: served.since,
                    silent_seconds: now_ms.saturating_sub(heard_ms) / 1_000,
                })?;
            }
        }
        peers.sort_unstable_by_key(|peer| peer.since);
        Ok(peers)
    }

    /// Whether the peer of a session that waits for a page is gone: the connection is broken, or it
    /// sends no more, and what came and isn't used can't end the open file. `buffer` is room for
    /// octets that are looked at. Right only where the session still waits for that when this
    /// returns: `SharedSpool::abort_waiting` compares it.
    pub fn is_gone<R: Wait>(&self, rt: &R, waiting: Waiting, buffer: &mut [u8]) -> bool {
        let Some(post) = self.posts.get(waiting.seat as usize) else {
            return false;
        };
        let served = post.served.lock(rt);
        let Some(ServedConnection { stream, .. }) = &*served else {
            return false;
        };
        match ask_peer(stream) {
            Peer::There => false,
            Peer::Gone => true,
            Peer::EndedSending => {
                let unread = unread_octets(stream, buffer);
                let last = post.last.load(Ordering::SeqCst);
                let received = post.received.load(Ordering::SeqCst);
                !may_end(&standing_of(waiting, unread, last, received))
            }
        }
    }
}

/// What is known of a session that waits for this, where of its connection so many octets are unread,
/// its last read gave `last`, and all reads gave `received`.
fn standing_of(waiting: Waiting, unread: Option<usize>, last: u64, received: u64) -> PeerStanding
    ensures unread { result.unread ≡ unwrap_or unread 0 }
    ensures last { result.last ≡ last }
    ensures received { result.received ≡ received }
    ensures taken { result.taken ≡ waiting.put }
    ensures left { result.left ≡ waiting.lacks }
{
    PeerStanding {
        unread: unread.unwrap_or(0) as u64,
        last,
        received,
        taken: waiting.put,
        left: waiting.lacks,
    }
}

/// The connection of a session, which counts what is read of it, and fails where its peer is too
/// slow.
#[derive(Drop)]
pub struct Meter<'a, R> {
    rt: &'a R,
    stream: &'a TcpStream,
    post: Option<&'a Post>,
    slowest: Option<NonZeroU64>,
    // The server's start, where it is noted when a peer is heard.
    start: Option<Instant>,
    // What came of it while its reads waited.
    pace: Pace,
}

impl<R: Clock> Meter<'_, R> {
    /// The peer was heard.
    fn note(&self) {
        let (Some(start), Some(post)) = (self.start, self.post) else {
            return;
        };
        if let Ok(now) = Instant::now(self.rt) {
            let heard_ms = milliseconds_between(start, now);
            post.heard_ms.store(heard_ms, Ordering::SeqCst);
        }
    }

    /// The peer was waited for since this moment, and sent `octets` octets. Whether it is too slow,
    /// where it has to send `slowest` a second.
    fn is_slow(&mut self, start: Instant, octets: u64, slowest: NonZeroU64) -> bool
        ensures { (self.new.pace.waited_ms < 60_000) ⊎ (self.new.pace ≡ self.old.pace) }
    {
        let Ok(waited) = start.elapsed(self.rt) else {
            return false;
        };
        let pace = self.pace.and(milliseconds(waited), octets);
        self.pace = pace.looked_at();
        pace.is_slow(slowest)
    }
}

impl<R: Clock> Read for Meter<'_, R> {
    fn read(&mut self, into: &mut [u8]) -> io::Result<usize> {
        let start = match self.slowest {
            None => None,
            Some(slowest) => Instant::now(self.rt).ok().map(|start| (start, slowest)),
        };
        let mut stream = self.stream;
        let count = stream.read(into)?;
        let octets = count as u64;
        if let Some(post) = self.post {
            let received = post.received.load(Ordering::SeqCst);
            let received = received.saturating_add(octets);
            post.received.store(received, Ordering::SeqCst);
            post.last.store(octets, Ordering::SeqCst);
        }
        self.note();
        if let Some((start, slowest)) = start {
            if count > 0 && self.is_slow(start, octets, slowest) {
                return Err(Error::from(ErrorKind::TimedOut));
            }
        }
        Ok(count)
    }
}
