//! Lines about hosts whose connections are closed, one a minute for each: they aren't let in, or there is no room for them.

ghost use Rattle.std.specs.Prelude.{◌≤◌, ◌+◌};
ghost use Rattle.std.specs.VecDeque.{deque_len};

use log::{Log, warn};
use std::alloc::Global;
use std::collections::{BTreeMap, VecDeque};
use std::fmt;
use std::net::{Ipv4Addr, SocketAddr};
use std::rt::Clock;
use std::time::Instant;

/// Why connections are closed.
#[derive(Clone, Copy)]
pub(crate) enum Closing {
    /// Their addresses aren't let in.
    NotLetIn,
    /// As many wait as may.
    WantOfRoom,
}

impl Closing {
    /// The part of the program that tells of them, as the log names it.
    fn part(self) -> &'static str {
        match self {
            Closing::NotLetIn => "server_edge::throttle",
            Closing::WantOfRoom => "server_edge::lobby",
        }
    }
}

/// What was done with them.
impl fmt::Display for Closing {
    fn fmt<W: fmt::Write>(&self, f: &mut fmt::Formatter<W>) -> fmt::Result {
        f.write_str(match self {
            Closing::NotLetIn => "weren't let in",
            Closing::WantOfRoom => "were closed for want of room",
        })
    }
}

/// The time from a line about a host to the next one, in seconds.
const AGAIN_SECONDS: u64 = 60;

/// The most hosts that are told apart. All further ones share a line.
const MOST_HOSTS: usize = 1_024;

/// When a line told of a host, and how many of its connections came since.
#[derive(Clone, Copy)]
struct RefusedHost {
    told: Instant,
    more: u64,
}

/// Whose connections were closed within a minute.
#[derive(Drop)]
pub(crate) struct Throttle {
    closing: Closing,
    hosts: BTreeMap<u32, RefusedHost>,
    // Which these are: the one whose line is the oldest stands first.
    order: VecDeque<u32>,
    // The connections of further hosts, and since when they are counted.
    others: u64,
    others_since: Option<Instant>,
}

/// Whether a minute has passed since a line. Without a clock it hasn't.
fn is_old<R: Clock>(rt: &R, told: Instant) -> bool {
    told.elapsed(rt)
        .is_ok_and(|elapsed| elapsed.as_secs() >= AGAIN_SECONDS)
}

impl Throttle {
    /// None yet, of those that are closed so.
    pub(crate) fn new(alloc: Global, closing: Closing) -> Throttle {
        Throttle {
            closing,
            hosts: BTreeMap::new(alloc),
            order: VecDeque::new(alloc),
            others: 0,
            others_since: None,
        }
    }

    /// For how many milliseconds at most a round waits: for ever where no line about a host is to come.
    pub(crate) fn patience_ms(&self) -> u64 {
        if self.order.is_empty() && self.others_since.is_none() {
            u64::MAX
        } else {
            AGAIN_SECONDS * 1_000
        }
    }

    /// Remembers a host of which a line tells now. False where memory is refused.
    fn remember(&mut self, now: Instant, host: u32) -> bool
        ensures { deque_len self.new.order ≤ deque_len self.old.order + 1 }
    {
        if self.order.push_back(host).is_err() {
            return false;
        }
        let refused = RefusedHost { told: now, more: 0 };
        if self.hosts.insert(host, refused).is_err() {
            self.order.pop_back();
            return false;
        }
        true
    }

    /// Counts a connection of a host. Whether a line tells of it at once, as the first one of its
    /// host in a minute, where there is a place for one host more.
    fn count(&mut self, now: Instant, host: u32) -> bool
        ensures { deque_len self.old.order ≤ 1024 → deque_len self.new.order ≤ 1024 }
    {
        if let Some(refused) = self.hosts.get_mut(&host) {
            refused.more = refused.more.saturating_add(1);
            return false;
        }
        if self.order.len() < MOST_HOSTS && self.remember(now, host) {
            return true;
        }
        self.others = self.others.saturating_add(1);
        self.others_since = self.others_since.or(Some(now));
        false
    }

    /// A connection of this host was closed for this: says so where it is the first one in a minute. Without a clock nothing is said.
    pub(crate) fn close<R: Clock + Log, W: fmt::Display>(
        &mut self,
        rt: &R,
        peer: SocketAddr,
        host: u32,
        why: &W,
    ) {
        let Ok(now) = Instant::now(rt) else {
            return;
        };
        if self.count(now, host) {
            warn!(rt; target: self.closing.part(), "{peer}: {why}");
        }
    }

    /// Says of a host how many of its connections were closed since its last line; it is forgotten
    /// where none was.
    fn tell_host<R: Clock + Log>(&mut self, rt: &R, host: u32) {
        let Some(RefusedHost { more, .. }) = self.hosts.remove(&host) else {
            return;
        };
        if more == 0 {
            return;
        }
        let address = Ipv4Addr::from_bits(host);
        let closing = self.closing;
        warn!(rt; target: closing.part(), "{address}: {more} more connections {closing}");
        if let Ok(now) = Instant::now(rt) {
            self.remember(now, host);
        }
    }

    /// Whether the line about a host is a minute old.
    fn is_due<R: Clock>(&self, rt: &R, host: u32) -> bool {
        match self.hosts.get(&host) {
            Some(refused) => is_old(rt, refused.told),
            None => true,
        }
    }

    /// Says what came since each line that is a minute old.
    pub(crate) fn tell_again<R: Clock + Log>(&mut self, rt: &R) {
        for _ in 0..MOST_HOSTS {
            let Some(oldest) = self.order.front().copied() else {
                break;
            };
            if !self.is_due(rt, oldest) {
                break;
            }
            self.order.pop_front();
            self.tell_host(rt, oldest);
        }
        if self.others_since.is_some_and(|since| is_old(rt, since)) {
            let (others, closing) = (self.others, self.closing);
            warn!(rt; target: closing.part(), "{others} connections of other addresses {closing}");
            self.others = 0;
            self.others_since = None;
        }
    }
}
