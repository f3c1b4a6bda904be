//! What was seen each minute over the last hour.

ghost use Rattle.std.specs.Prelude.{◌≡◌, ◌≤◌, [], ◌∷◌, ◌++◌, OnOk, length};
ghost use Rattle.server_counts.specs.Hour.{latest};
ghost use Rattle.server_counts.specs.declared.hour.TheConstants.{MOST_LOOKS};

use std::alloc::{AllocError, Global};
use std::marker::Model;

/// How many looks a last hour has at most: one each minute, from one end of it to the other.
pub const MOST_LOOKS: usize = 61;

/// Where the pages were at one moment, and what was done until then.
#[derive(Clone, Copy, Debug, PartialEq, Eq)]
pub struct Look {
    /// The second, from when the server began.
    pub second: u64,
    /// The pages that were free.
    pub free: usize,
    /// The pages in the chains of the held jobs.
    pub chained: usize,
    /// The pages that were lent to sessions.
    pub lent: usize,
    /// The pages that were out at printers.
    pub out: usize,
    /// How many jobs were printed to their end since the server began.
    pub done: u64,
    /// The octets of those.
    pub octets: u64,
}

/// The latest looks, oldest first, of which there are at most `MOST_LOOKS`.
#[derive(Drop)]
pub struct LastHour {
    looks: Vec<Look>,
}

impl Model for LastHour {
    ghost use Rattle.std.specs.Prelude.{ℕ, List, ◌≤◌, length};
    ghost use Rattle.server_counts.specs.declared.hour.Look.{Look as Seen};
    ghost use Rattle.server_counts.specs.declared.hour.TheConstants.{MOST_LOOKS};

    ghost Value = { List Seen };

    ghost view = { λ h. h.looks.items };

    ghost invariant = { λ h. length h.looks.items ≤ MOST_LOOKS };
}

impl LastHour {
    /// None yet.
    pub fn new(alloc: Global) -> LastHour
        ensures { result ≡ [] }
    {
        LastHour {
            looks: Vec::new(alloc),
        }
    }

    /// Notes a look, for which the oldest goes where there are as many as there may be.
    ///
    /// AllocError where memory for it is refused.
    pub fn note(&mut self, look: Look) -> Result<(), AllocError>
        ensures ok { OnOk result (self.new ≡ latest MOST_LOOKS (self.old ++ look ∷ [])) }
        ensures within { length self.new ≤ MOST_LOOKS }
    {
        if self.looks.len() == MOST_LOOKS {
            let _oldest = self.looks.remove(0);
        }
        self.looks.push(look)?;
        Ok(())
    }

    /// The looks, oldest first.
    pub fn looks(&self) -> &[Look]
        ensures looks { result.now ≡ self.now }
        ensures within { length self.now ≤ MOST_LOOKS }
    {
        self.looks.as_slice()
    }
}
