//! What is known of a server beside its spool, for whoever looks after it.

use config_values::Config;
use mio::Waker;
use server_notes::{Delays, Doubts, Standstills};
use std::alloc::{AllocError, Global};
use std::fs::File;
use std::rt::Clock;
use std::sync::atomic::{AtomicU64, Ordering};
use std::time::Instant;

/// What is known of a server beside its spool.
#[derive(Drop)]
pub struct Oversight {
    /// The spool's configuration.
    pub config: Config,
    /// When the server started, where somebody looks after it or at it.
    pub start: Option<Instant>,
    /// Which printers stand still.
    pub standstills: Standstills,
    /// At which printers nothing of a page goes.
    pub delays: Delays,
    /// Of which printed jobs it isn't known whether all of them came.
    pub doubts: Doubts,
    /// The printers' pipes, by the printers' numbers, from 1, where a steward looks after it.
    pub pipes: Vec<Option<File>>,
    // How many connections wait in the lobby.
    in_lobby: AtomicU64,
    /// What wakes the steward, where one waits at a control socket.
    pub waker: Option<Waker>,
}

impl Oversight {
    /// Of a server of this configuration nothing is known yet, and nobody looks after it or at it. AllocError where memory is refused.
    pub fn new(alloc: Global, config: &Config) -> Result<Oversight, AllocError> {
        let config = Config::copy_of(alloc, config)?;
        let standstills = Standstills::new(alloc, config.printer_count())?;
        let delays = Delays::new(alloc, config.printer_count())?;
        let doubts = Doubts::new(alloc, config.printer_count())?;
        Ok(Oversight {
            config,
            start: None,
            standstills,
            delays,
            doubts,
            pipes: Vec::new(alloc),
            in_lobby: AtomicU64::new(0),
            waker: None,
        })
    }

    /// Somebody looks after the server, or at it, which starts now.
    pub fn watch<R: Clock>(&mut self, rt: &R) {
        self.start = Instant::now(rt).ok();
    }

    /// Wakes the steward, where one waits at a control socket.
    pub fn wake_steward(&self) {
        if let Some(waker) = &self.waker {
            // A steward who isn't woken looks within half a second.
            let _ = waker.wake();
        }
    }

    /// How many connections wait in the lobby, when it was noted last.
    pub fn in_lobby(&self) -> u64 {
        self.in_lobby.load(Ordering::SeqCst)
    }

    /// N connections wait in the lobby.
    pub fn note_lobby(&self, waiting: u64) {
        self.in_lobby.store(waiting, Ordering::SeqCst);
    }
}
