//! How far the end of a server has come, as its threads see it.
//!
//! ```text
//!          stop           stop now            nothing is left to do, or stop now
//!   runs ---------> stops ---------> cuts off -----------------------------------> closed
//!     |                                                                              ^
//!     +----------------- the last connection was served, nothing is left to do ------+
//! ```

use std::sync::Mutex;
use std::sync::atomic::{AtomicBool, Ordering};

/// How far the end of a server has come. It never goes back.
#[derive(Drop)]
pub struct ServerEnding {
    stops: AtomicBool,
    cuts_off: AtomicBool,
    closed: AtomicBool,
    /// Whether the jobs that are lost were told. Who tells them holds it meanwhile, and closes the spool behind that: so each is told once.
    pub lost_is_told: Mutex<bool>,
}

impl ServerEnding {
    /// The server runs.
    pub fn new() -> ServerEnding {
        ServerEnding {
            stops: AtomicBool::new(false),
            cuts_off: AtomicBool::new(false),
            closed: AtomicBool::new(false),
            lost_is_told: Mutex::new(false),
        }
    }

    /// Nobody is let in any more, and what was taken is printed to its end.
    pub fn stop(&self) {
        self.stops.store(true, Ordering::SeqCst);
    }

    /// Whether nobody is let in any more.
    pub fn stops(&self) -> bool {
        self.stops.load(Ordering::SeqCst)
    }

    /// Nothing is waited for any more: no peer, no printer.
    pub fn cut_off(&self) {
        self.stop();
        self.cuts_off.store(true, Ordering::SeqCst);
    }

    /// Whether nothing is waited for any more.
    pub fn cuts_off(&self) -> bool {
        self.cuts_off.load(Ordering::SeqCst)
    }

    /// The spool is closed.
    pub fn close(&self) {
        self.closed.store(true, Ordering::SeqCst);
    }

    /// Whether the spool is closed.
    pub fn is_closed(&self) -> bool {
        self.closed.load(Ordering::SeqCst)
    }

    /// Whether no job is to be printed any more.
    pub fn is_over(&self) -> bool {
        self.cuts_off() || self.is_closed()
    }
}
