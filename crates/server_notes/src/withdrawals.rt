//! Queues of which a printer stands still for no cause of its own: the job that it waited with was removed.
//!
//! A page that comes back as not written stops its printer, also where its job had been removed and so nobody waited any more. What one user
//! removes is to stop no queue, so such a queue is started again at once: by the watcher, which has a seat for it.

use std::alloc::{AllocError, Global};
use std::sync::{Mutex, Wait};

/// The queues of a server that are to be started again at once, by their numbers.
#[derive(Drop)]
pub struct Withdrawals {
    queues: Vec<Mutex<bool>>,
}

impl Withdrawals {
    /// None of N queues. An error where memory is refused.
    pub fn new(alloc: Global, queues: usize) -> Result<Withdrawals, AllocError> {
        let mut places = Vec::new(alloc);
        for _queue in 0..queues {
            places.push(Mutex::new(false))?;
        }
        Ok(Withdrawals { queues: places })
    }

    /// The place of a queue, which are numbered from 1.
    fn place(&self, queue: u32) -> Option<&Mutex<bool>> {
        self.queues.get((queue as usize).checked_sub(1)?)
    }

    /// A printer of a queue gave a page back whose job was removed, and stands still since.
    pub fn note<R: Wait>(&self, rt: &R, queue: u32) {
        if let Some(place) = self.place(queue) {
            *place.lock(rt) = true;
        }
    }

    /// Whether a queue is to be started again at once. It counts as started from then on.
    pub fn take<R: Wait>(&self, rt: &R, queue: u32) -> bool {
        let Some(place) = self.place(queue) else {
            return false;
        };
        let mut is_due = place.lock(rt);
        let was_due = *is_due;
        *is_due = false;
        was_due
    }
}
