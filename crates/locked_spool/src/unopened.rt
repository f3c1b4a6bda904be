//! What comes back where a spool isn't opened.

use config_values::Config;
use spool_ledgers::Blanks;
use std::alloc::AllocError;
use std::error::Error;
use std::fmt;

/// Memory for a spool was refused. What it was to be made of comes back.
#[derive(Debug, Drop)]
pub struct Unopened {
    /// The ledgers.
    pub blanks: Blanks,
    /// The configuration.
    pub config: Config,
}

/// Writes the number and the name of the refusal.
impl fmt::Display for Unopened {
    ghost use Rattle.std.specs.Prelude.{Some, codes};

    ghost output = { λ _. Some (codes "12 Memory") };

    fn fmt<W: fmt::Write>(&self, f: &mut fmt::Formatter<W>) -> fmt::Result {
        f.write_str("12 Memory")
    }
}

impl Error for Unopened {}

/// For who has no other use for what came back: it is dropped.
impl From<Unopened> for AllocError {
    fn from(_unopened: Unopened) -> AllocError {
        AllocError
    }
}
