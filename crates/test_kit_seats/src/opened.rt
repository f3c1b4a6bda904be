//! A spool that threads share, opened with its ledgers.

ghost use Rattle.spool_ledgers.specs.Blanks.{AreFor, mark};

use config_values::Config;
use shared_spool::{Blanks, Opened, SharedSpool, SpoolLedger};
use std::alloc::{AllocError, Global};
use std::marker::Brand;
use std::sync::Wait;
use std::sync::ledger::Ledger;
use std::thread::Threads;
use std::time::Clock;

/// What threads that share a spool need of what runs them.
pub trait Host: AllocGlobal + Clock + Threads + Wait + Sync {}

impl<T: AllocGlobal + Clock + Threads + Wait + Sync> Host for T {}

/// The ledger of a spool's entries, where threads share it.
pub trait Entries: SpoolLedger + Send + Sync {}

impl<T: SpoolLedger + Send + Sync> Entries for T {}

/// One of a spool's other two ledgers, where threads share it.
pub trait Sums: Ledger + Send + Sync {}

impl<T: Ledger + Send + Sync> Sums for T {}

/// What is done at a spool, whatever its ledgers are, by one thread. (A trait's method can't start threads over values of its own
/// type parameters: `bound that is assumed of this thread alone`. Who does that opens the spool by a function of those parameters.)
pub trait AtSpool: Drop {
    /// What comes of it.
    type Done;

    /// Does it at a spool in which nothing happened yet.
    fn act<E: Entries, K: Sums, H: Sums>(self, opened: Opened<E, K, H>) -> Self::Done;
}

/// Opens a spool at these ledgers, and has this done there.
fn open_at<
    E: SpoolLedger + Send + Sync,
    K: Ledger + Send + Sync,
    H: Ledger + Send + Sync,
    A: AtSpool,
>(
    alloc: Global,
    config: Config,
    sessions: u32,
    blanks: Blanks,
    at_spool: A,
) -> Result<A::Done, AllocError>
    requires { AreFor blanks config sessions E.config (mark E.name E.parts)
        (mark K.name K.parts) (mark H.name H.parts) }
{
    match SharedSpool::<E, K, H>::new(alloc, blanks, config, sessions) {
        Ok(opened) => Ok(at_spool.act(opened)),
        Err(_) => Err(AllocError),
    }
}

/// Opens a spool of this configuration with seats for so many sessions, and has this done there.
///
/// Memory was refused.
pub fn open<A: AtSpool>(
    alloc: Global,
    config: Config,
    sessions: u32,
    at_spool: A,
) -> Result<A::Done, AllocError> {
    let blanks = Blanks::new(&config, sessions);
    open_at::<Brand, Brand, Brand, A>(alloc, config, sessions, blanks, at_spool)
}
