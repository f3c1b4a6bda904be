//! Handing connections on to sessions that are free.
//!
//! Accepted sockets go to the threads that serve them by channels, one for each sort of session, without a bound, by `send` and `recv`.
//! How many sessions are free is counted under the desk's lock, and only the thread that hands on takes from that number; so nothing
//! rests on what a channel answers about how full it is. The end is that the senders are dropped.

ghost use Rattle.std.specs.Prelude.{◌≡◌, ◌≢◌, ◌↔◌, ◌<◌, ◌+◌, ◌-◌, ◌^◌, ◌++◌, ◌∷◌, [], ℕ};
ghost use Rattle.std.specs.Prelude.{IfSome, IsSome, IsTrue, None, Some, false, length, min, slice_get};
ghost use Rattle.connection_lobby.specs.Desk.{HasPlace, IsFirstFree, IsFree, IsFreeFor, IsNoneFree};
ghost use Rattle.connection_lobby.specs.Desk.{of_host};
ghost use Rattle.connection_lobby.specs.declared.desk.Serves.TheVariants.{All, NoJobs};
ghost use Rattle.connection_lobby.specs.declared.first_line.Purpose.TheVariants.{Job, Listing};

use crate::first_line::Purpose;
use crate::waiting_room::{Ready, Visit};
use crossbeam_channel::{Receiver, Sender};
use mio::Waker;
use std::alloc::{AllocError, Global};
use std::collections::VecDeque;
use std::mem;
use std::sync::{Mutex, Wait};

/// The most long listings that are answered at once: each may hold megabytes.
const MOST_LISTINGS: u32 = 8;

/// Which connections a session serves.
#[derive(Clone, Copy)]
pub enum Serves {
    /// Any.
    All,
    /// All but jobs.
    NoJobs,
}

/// Sessions of one sort: how many are free. One that a connection was handed to isn't counted any more.
#[derive(Drop)]
struct Window {
    free: u32,
}

impl Window {
    /// Takes one off, where one is free. Whether it has.
    fn take_one(&mut self) -> bool
        ensures taken { IsTrue result ↔ 0 < self.old.free }
        ensures left { self.new.free ≡ self.old.free - 1 }
    {
        if self.free == 0 {
            return false;
        }
        self.free -= 1;
        true
    }

    /// One more is free.
    fn give_one(&mut self)
        ensures { self.new.free ≡ min (self.old.free + 1) (2 ^ 32 - 1) }
    {
        self.free = self.free.saturating_add(1);
    }
}

/// The first place of a host among these. None where it has none.
fn place_of(hosts: &[u32], host: u32) -> Option<usize>
    ensures place { IfSome result (λ at. slice_get hosts.now at ≡ Some host) }
    ensures none { result ≡ None → of_host host hosts.now ≡ 0 }
{
    for at in 0..hosts.len() {
        if hosts[at] == host {
            return Some(at);
        }
    }
    None
}

/// What is under the lock.
#[derive(Drop)]
struct DeskState {
    all: Window,
    no_jobs: Window,
    // The hosts that sessions for all serve, each as often as it has one, and how many one host may have.
    hosts: Vec<u32>,
    per_host: u32,
    // The long listings that are in hand.
    listings: u32,
    // Something is ready for which no session was free.
    wanted: bool,
}

impl DeskState {
    /// A session is free again.
    fn give_one(&mut self, serves: Serves)
        ensures wanted { self.new.wanted ≡ self.old.wanted }
    {
        match serves {
            Serves::All => self.all.give_one(),
            Serves::NoJobs => self.no_jobs.give_one(),
        }
    }

    /// Whether a session for all is free for this host.
    fn has_place(&self, host: u32) -> bool
        ensures { IsTrue result ↔ HasPlace self.now.all.free self.now.hosts.items host
            self.now.per_host }
    {
        let of_host = self.hosts.iter().filter(|other| **other == host);
        self.all.free > 0 && of_host.count() < self.per_host as usize
    }

    /// Whether a session is free for this one.
    fn is_free(&self, ready: Ready) -> bool
        ensures { IsTrue result ↔ IsFree ready.purpose self.now.all.free self.now.no_jobs.free
            self.now.listings self.now.hosts.items ready.host self.now.per_host }
    {
        match ready.purpose {
            Purpose::Job => self.has_place(ready.host),
            Purpose::Listing if self.listings >= MOST_LISTINGS => false,
            Purpose::Short | Purpose::Listing => {
                self.no_jobs.free > 0 || self.has_place(ready.host)
            }
        }
    }

    /// The place of the first of these for which a session is free. Where there is none, somebody wants one.
    fn first_free(&mut self, waiting: &VecDeque<Ready>) -> Option<usize>
        ensures first { IfSome result (IsFirstFree (IsFreeFor self.old) waiting.now.items) }
        ensures none { result ≡ None
            → IsNoneFree (IsFreeFor self.old) waiting.now.items (length waiting.now.items) }
    {
        for at in 0..waiting.len() {
            if self.is_free(waiting[at]) {
                return Some(at);
            }
        }
        self.wanted |= !waiting.is_empty();
        None
    }

    /// A session is free. Whether somebody wants one, which is told once.
    fn come(&mut self, serves: Serves) -> bool
        ensures told { result ≡ self.old.wanted }
        ensures once { self.new.wanted ≡ false }
    {
        self.give_one(serves);
        mem::replace(&mut self.wanted, false)
    }

    /// Takes a session that is free for one that comes for this: one that brings no job takes one for no jobs first, so that
    /// the others stay free for jobs. Answers which; None where none is free, or memory is refused.
    fn hand(&mut self, purpose: Purpose, host: u32) -> Option<Serves>
        ensures job { purpose ≡ Job → result ≢ Some NoJobs }
        ensures listing { purpose ≡ Listing → IsSome result
            → self.new.listings ≡ min (self.old.listings + 1) (2 ^ 32 - 1) }
        ensures other { purpose ≢ Listing → self.new.listings ≡ self.old.listings }
        ensures no_jobs { purpose ≢ Job → 0 < self.old.no_jobs.free → result ≡ Some NoJobs }
        ensures share { result ≡ Some All
            → self.new.hosts.items ≡ self.old.hosts.items ++ host ∷ [] }
        ensures no_share { result ≢ Some All → self.new.hosts.items ≡ self.old.hosts.items }
    {
        let serves = if !matches!(purpose, Purpose::Job) && self.no_jobs.take_one() {
            Some(Serves::NoJobs)
        } else if self.hosts.push(host).is_ok() {
            let is_free = self.all.take_one();
            if !is_free {
                self.hosts.pop();
            }
            is_free.then_some(Serves::All)
        } else {
            None
        };
        if matches!(purpose, Purpose::Listing) && serves.is_some() {
            self.listings = self.listings.saturating_add(1);
        }
        serves
    }

    /// A session has served this.
    fn leave(&mut self, serves: Serves, purpose: Purpose, host: u32)
        ensures listing { purpose ≡ Listing → self.new.listings ≡ self.old.listings - 1 }
        ensures other { purpose ≢ Listing → self.new.listings ≡ self.old.listings }
        ensures no_jobs { serves ≡ NoJobs → self.new.hosts ≡ self.old.hosts }
        ensures share { serves ≡ All
            → of_host host self.new.hosts.items ≡ of_host host self.old.hosts.items - 1 }
        ensures others { (other : ℕ) → other ≢ host
            → of_host other self.new.hosts.items ≡ of_host other self.old.hosts.items }
    {
        if matches!(purpose, Purpose::Listing) {
            self.listings = self.listings.saturating_sub(1);
        }
        if matches!(serves, Serves::All) {
            if let Some(at) = place_of(self.hosts.as_slice(), host) {
                self.hosts.remove(at);
            }
        }
    }
}

/// Where sessions take what one thread hands on.
#[derive(Drop)]
pub struct Desk {
    hall: Mutex<DeskState>,
    for_all: Receiver<Visit>,
    for_no_jobs: Receiver<Visit>,
}

/// What one thread hands on by. Once it is dropped nothing more comes; what was handed on is still taken.
#[derive(Drop)]
pub struct Doors {
    all: Sender<Visit>,
    no_jobs: Sender<Visit>,
}

impl Doors {
    /// Hands on where a session is free that serves its purpose. Whether it has; where it hasn't, the connection is closed. Never
    /// waits for a session.
    pub fn hand<R: Wait>(&self, rt: &R, desk: &Desk, visit: Visit) -> bool {
        let (purpose, host) = (visit.purpose, visit.host());
        let Some(serves) = desk.hall.lock(rt).hand(purpose, host) else {
            return false;
        };
        let door = match serves {
            Serves::All => &self.all,
            Serves::NoJobs => &self.no_jobs,
        };
        // The channel has no bound: only memory can be refused.
        let is_sent = door.send(rt, visit).is_ok();
        if !is_sent {
            let mut hall = desk.hall.lock(rt);
            hall.leave(serves, purpose, host);
            hall.give_one(serves);
        }
        is_sent
    }
}

impl Desk {
    /// A desk with no session, and what is handed on by. One host may have `per_host` sessions for all at once. An error where
    /// memory is refused.
    pub fn new(alloc: Global, per_host: u32) -> Result<(Desk, Doors), AllocError> {
        let (all, for_all) = crossbeam_channel::unbounded(alloc)?;
        let (no_jobs, for_no_jobs) = crossbeam_channel::unbounded(alloc)?;
        let hall = Mutex::new(DeskState {
            all: Window { free: 0 },
            no_jobs: Window { free: 0 },
            hosts: Vec::new(alloc),
            per_host,
            listings: 0,
            wanted: false,
        });
        let desk = Desk {
            hall,
            for_all,
            for_no_jobs,
        };
        Ok((desk, Doors { all, no_jobs }))
    }

    /// Takes out the first of these for which a session is free. Only whoever hands on takes that away. Where there is none, the
    /// next session that is free says so.
    pub(crate) fn first_free<R: Wait>(
        &self,
        rt: &R,
        waiting: &mut VecDeque<Ready>,
    ) -> Option<Ready> {
        let at = self.hall.lock(rt).first_free(waiting)?;
        waiting.remove(at)
    }

    /// Whether a session is free for this one. Only whoever hands on takes that away. Where none is, the next session that is
    /// free says so.
    pub(crate) fn is_free<R: Wait>(&self, rt: &R, ready: Ready) -> bool {
        let mut hall = self.hall.lock(rt);
        let is_free = hall.is_free(ready);
        hall.wanted |= !is_free;
        is_free
    }

    /// A session has served this. The connection is closed.
    pub fn leave<R: Wait>(&self, rt: &R, serves: Serves, visit: Visit) {
        let (purpose, host) = (visit.purpose, visit.host());
        drop(visit);
        self.hall.lock(rt).leave(serves, purpose, host);
    }

    /// The next connection for a session, which is free until then; None after the end. Where whoever hands on has to be told,
    /// it is woken while the session is free.
    pub fn take<R: Wait>(&self, rt: &R, serves: Serves, waker: &Waker) -> Option<Visit> {
        let mut hall = self.hall.lock(rt);
        if hall.come(serves) {
            let _ = waker.wake();
        }
        drop(hall);
        let door = match serves {
            Serves::All => &self.for_all,
            Serves::NoJobs => &self.for_no_jobs,
        };
        door.recv(rt).ok()
    }
}
