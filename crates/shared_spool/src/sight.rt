//! A spool as it was at one moment, with who waits for it.

use crate::line::Waiting;
use crate::spool::SharedSpool;
use locked_spool::Snapshot;
use spool_ledgers::SpoolLedger;
use std::alloc::{AllocError, Global};
use std::sync::Wait;
use std::sync::ledger::Ledger;

/// A spool as it was at one moment, with who waits for it.
#[derive(Drop)]
pub struct Sight {
    /// Its jobs, claims, pages and printers. What is reserved of its account is without what trims gave back.
    pub spool: Snapshot,
    /// The sessions that wait for a page, by the numbers of their seats.
    pub waiting: Vec<Waiting>,
    /// Whether a queue is held, by its number. None has the number 0.
    pub held: Vec<bool>,
    /// The number of the account's segment: one more than how often it was rotated or trimmed.
    pub segment: u64,
}

impl<E: SpoolLedger, K: Ledger, H: Ledger> SharedSpool<E, K, H> {
    /// The spool as it is now, and the sessions that wait for a page: all of one moment, under one lock. As plain data it can be
    /// looked at for as long as anybody likes; it changes nothing.
    ///
    /// AllocError where memory for it is refused.
    pub fn sight<R: Wait>(&self, rt: &R, alloc: Global) -> Result<Box<Sight>, AllocError> {
        let room = self.state.lock(rt);
        let mut spool = room.locked.snapshot()?;
        spool.reserved = room.locked.counted();
        let sight = Sight {
            spool,
            waiting: room.line.all_waiting(alloc)?,
            held: Vec::from_slice(alloc, room.line.held.as_slice())?,
            segment: room.locked.segment(),
        };
        Ok(Box::new(alloc, sight)?)
    }
}
