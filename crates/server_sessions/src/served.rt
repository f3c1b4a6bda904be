//! What a session's requests leave behind for the server.

use job_disk::DiskFolder;
use kept_requests::{Cause, Keeping};
use log::{Log, warn};
use noted_requests::Noting;
use parked_requests::{JobWays, Parking, Parks, Parted};
use request_session::Requests;
use server_house::{HandedOf, HouseLedger, KindsOf};
use session::Seated;
use std::fs::{File, Files};
use std::net::SocketAddr;
use std::sync::Wait;

/// The part of the program that logs what happens here, as the log names it.
const PART: &str = "lpd_daemon::served";

/// A seat at a server's spool that carries requests out.
pub type HouseSeated<'a, R, E> = Seated<'a, R, E, KindsOf<E>, HandedOf<E>>;

/// What carries out a session's requests, as the server sees it behind the session.
pub trait Served {
    /// The numbers of the jobs that its last removal took: each removal's are told once.
    fn take_removed(&mut self) -> Option<Vec<u64>>;

    /// No job is in hand any more. The log is told of this peer's job that wasn't kept, and why. Whether there was one.
    fn let_go<L: Log>(&mut self, rt: &L, peer: SocketAddr) -> bool;
}

impl<R: Wait, E: HouseLedger> Served for HouseSeated<'_, R, E> {
    fn take_removed(&mut self) -> Option<Vec<u64>> {
        Seated::take_removed(self)
    }

    fn let_go<L: Log>(&mut self, _rt: &L, _peer: SocketAddr) -> bool {
        false
    }
}

impl<Q: Served, N> Served for Noting<Q, N> {
    fn take_removed(&mut self) -> Option<Vec<u64>> {
        self.inner.take_removed()
    }

    fn let_go<L: Log>(&mut self, rt: &L, peer: SocketAddr) -> bool {
        self.inner.let_go(rt, peer)
    }
}

impl<Q: Served, P> Served for Parted<Q, P> {
    fn take_removed(&mut self) -> Option<Vec<u64>> {
        self.inner.take_removed()
    }

    fn let_go<L: Log>(&mut self, rt: &L, peer: SocketAddr) -> bool {
        self.inner.let_go(rt, peer)
    }
}

impl<Q: Served + Requests, W: JobWays> Served for Parking<Q, W> {
    fn take_removed(&mut self) -> Option<Vec<u64>> {
        self.inner.take_removed()
    }

    fn let_go<L: Log>(&mut self, rt: &L, peer: SocketAddr) -> bool {
        Parking::let_go(self);
        self.inner.let_go(rt, peer)
    }
}

impl<Q: Served + Parks, R: Files<File = File> + Wait> Served for Keeping<Q, DiskFolder<'_, R>> {
    fn take_removed(&mut self) -> Option<Vec<u64>> {
        self.inner.take_removed()
    }

    fn let_go<L: Log>(&mut self, rt: &L, peer: SocketAddr) -> bool {
        self.hand.let_go();
        self.inner.let_go(rt, peer);
        let (cause, fault) = (self.given_up.take(), self.hand.folder.take_fault());
        let is_unkept = cause.is_some_and(|cause| cause != Cause::Refused);
        match (cause, fault) {
            (None | Some(Cause::Refused), None) => {}
            (Some(Cause::Unfit), None) => {
                warn!(rt; target: PART, "{peer}: a job isn't kept: it couldn't be read back");
            }
            (Some(Cause::Folder(_)), None) => {
                warn!(rt; target: PART, "{peer}: a job isn't kept: memory was refused");
            }
            (None, Some(fault)) => warn!(rt; target: PART, "{peer}: {fault}"),
            (Some(_), Some(fault)) => warn!(rt; target: PART, "{peer}: a job isn't kept: {fault}"),
        }
        is_unkept
    }
}
