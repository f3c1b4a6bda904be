//! A server's spool, and what its threads share beside it.

use crate::hall::Hall;
use crate::ledgers::{HouseLedger, HouseSpool};
use log::Log;
use std::alloc::AllocError;
use std::fs::{File, Files};
use std::sync::Wait;

/// A server's spool, and what its threads share beside it, as each of them has it.
#[derive(Drop)]
pub struct House<'h, 'a, R, E: HouseLedger> {
    pub spool: &'h HouseSpool<E>,
    pub hall: &'h Hall<'a, R>,
}

impl<R, E: HouseLedger> Clone for House<'_, '_, R, E> {
    fn clone(&self) -> Result<Self, AllocError> {
        Ok(*self)
    }
}

impl<R, E: HouseLedger> Copy for House<'_, '_, R, E> {}

impl<R: Files<File = File> + Log + Wait, E: HouseLedger> House<'_, '_, R, E> {
    /// Holds each queue that the folder of kept jobs says was held, where there is one: at a start, before a job comes.
    pub fn hold_again(&self) {
        let Some(kept) = &self.hall.kept else {
            return;
        };
        for (place, queue) in self.hall.oversight.config.queues().iter().enumerate() {
            if kept.is_held(self.hall.rt, place) {
                // The queue is one of the spool's.
                let _ = self.spool.hold(self.hall.rt, queue.name());
            }
        }
    }
}
