//! What an account begins from, where earlier entries are kept no more.

ghost use Rattle.std.specs.Prelude.{◌≡◌};
ghost use Rattle.spool_history.specs.Base as B;
ghost use Rattle.account.specs.Seen.{base_seen};

use std::alloc::Global;

/// What earlier entries left, where no job was held.
#[derive(Drop)]
pub struct Base {
    /// The last acceptance number, or 0 before the first.
    pub accepted: u64,
    /// The counted reserve, in entries of the account.
    pub reserved: u64,
    /// Whether the spool is closed.
    pub closed: bool,
    /// For each printer, by its number from 1, whether it is stopped. One that the list lacks is not.
    pub stopped: Vec<bool>,
}

impl Base {
    /// The base of a spool in which nothing has happened.
    pub fn first(alloc: Global) -> Base
        ensures { base_seen result ≡ B.first_base }
    {
        Base {
            accepted: 0,
            reserved: 0,
            closed: false,
            stopped: Vec::new(alloc),
        }
    }

    /// Whether the printer of this number was stopped. 0 is the number of none.
    pub fn was_stopped(&self, printer: u32) -> bool
        ensures { result ≡ B.was_stopped (base_seen self.now) printer }
    {
        printer != 0 && matches!(self.stopped.get(printer as usize - 1), Some(true))
    }
}
