//! What is known of the thread that shows the status.

use mio::Waker;

/// What others know of the thread that shows the status.
#[derive(Drop)]
pub struct Showing {
    /// What wakes it.
    waker: Waker,
}

impl Showing {
    /// A thread that is woken by this.
    pub fn new(waker: Waker) -> Showing {
        Showing { waker }
    }

    /// Wakes the thread, which then ends where the spool is closed.
    pub fn end(&self) {
        // A thread that isn't woken looks within a minute.
        let _ = self.waker.wake();
    }
}
