//! Queues that are started again by themselves once a printer of theirs has failed.
//!
//! `--restart` starts whole queues, by the same event as command 01, so it needs no other room in the account. The watcher does it, which
//! looks once a second in any case: it needs no thread and no seat of its own. A server that is being stopped starts none, since a stop
//! passes over printers that stand still.
//!
//! Without it, too, a queue is started at once whose printer stands still for want of its job alone, which was removed: what one user removes
//! stops no queue. Where another printer of the queue stands still for a cause of its own it waits for whoever starts the queue. A printer that
//! wasn't reached and gave its job back is started so too, once it is to be tried again.

use crate::house::House;
use crate::ledgers::{HouseLedger, HouseSeat};
use log::{Log, warn};
use server_notes::Failures;
use std::rt::Clock;
use std::sync::Wait;
use std::time::Instant;

impl<R: Clock + Log + Wait, E: HouseLedger> House<'_, '_, R, E> {
    /// Starts a queue again of which this has failed, and tells that, where a printer of it stood still.
    fn start_again(&self, seat: &mut HouseSeat<E>, queue: u32, failures: Failures) {
        let name = self.hall.oversight.config.name_of(queue);
        let Ok(started) = self.spool.start_telling(self.hall.rt, seat, name) else {
            return;
        };
        if started.stopped > 0 {
            let (name, Failures { seconds, lost, .. }) = (self.hall.queue_name(queue), failures);
            warn!(self.hall.rt; "queue {name} is started again after {seconds} s: {lost} jobs have failed since a page was written");
        }
    }

    /// Whether a printer of a queue stands still for a cause of its own.
    fn has_standstill(&self, queue: u32) -> bool {
        let (rt, oversight) = (self.hall.rt, &self.hall.oversight);
        for before in 0..oversight.config.printer_count() {
            let printer = before + 1;
            if oversight.config.queue_of(printer) == queue
                && oversight.standstills.of(rt, printer).is_some()
                && self.spool.is_stopped(rt, printer)
            {
                return true;
            }
        }
        false
    }

    /// Starts a queue at once whose printer stands still for want of its job, unless another of its printers stands still for a cause of
    /// its own.
    fn start_at_once(&self, seat: &mut HouseSeat<E>, queue: u32) {
        if self.hall.withdrawals.take(self.hall.rt, queue) && !self.has_standstill(queue) {
            let name = self.hall.oversight.config.name_of(queue);
            let _ = self.spool.start_telling(self.hall.rt, seat, name);
        }
    }

    /// Starts the queue of each printer again that gave its job back and is tried again now, unless another of the queue's printers stands
    /// still for a cause of its own.
    fn start_put_off(&self, seat: &mut HouseSeat<E>, now: Instant) {
        let config = &self.hall.oversight.config;
        for before in 0..config.printer_count() {
            let printer = before + 1;
            if !self.hall.put_offs.is_waiting(self.hall.rt, printer) {
                continue;
            }
            let queue = config.queue_of(printer);
            if !self.has_standstill(queue)
                && self.hall.put_offs.take_due(self.hall.rt, printer, now)
            {
                let name = config.name_of(queue);
                if self.spool.start_telling(self.hall.rt, seat, name).is_err() {
                    // The account has no room for it now.
                    self.hall.put_offs.put_off(self.hall.rt, printer);
                }
            }
        }
    }

    /// Starts each queue again of which that is due, unless the server is being stopped.
    pub fn start_all_due(&self, seat: &mut HouseSeat<E>) {
        if self.hall.ending.stops() {
            return;
        }
        let Ok(now) = Instant::now(self.hall.rt) else {
            return;
        };
        self.start_put_off(seat, now);
        for place in 0..self.hall.oversight.config.queues().len() {
            let queue = place as u32 + 1;
            self.start_at_once(seat, queue);
            if let Some(failures) = self.hall.restarts.take_due(self.hall.rt, queue, now) {
                self.start_again(seat, queue, failures);
            }
        }
    }
}
