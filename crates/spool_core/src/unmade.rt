//! What comes back where a spool isn't made.

use config_values::Config;
use std::alloc::AllocError;
use std::error::Error;
use std::fmt;

/// Memory for a spool was refused. What it was to be made for comes back.
#[derive(Debug, Drop)]
pub struct Unmade {
    /// The configuration.
    pub config: Config,
}

/// Writes the number and the name of the refusal.
impl fmt::Display for Unmade {
    ghost use Rattle.std.specs.Prelude.{Some, codes};

    ghost output = { λ _. Some (codes "12 Memory") };

    fn fmt<W: fmt::Write>(&self, f: &mut fmt::Formatter<W>) -> fmt::Result {
        f.write_str("12 Memory")
    }
}

impl Error for Unmade {}

/// For who has no other use for the configuration: it is dropped.
impl From<Unmade> for AllocError {
    fn from(_unmade: Unmade) -> AllocError {
        AllocError
    }
}
