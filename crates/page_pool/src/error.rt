//! Why a pool is refused.

use std::error::Error;
use std::fmt::{self, Display, Formatter, Write};

/// Why a pool is not made.
#[derive(Clone, Copy, Debug, PartialEq, Eq)]
pub enum PoolError {
    /// The number of pages, or their size in octets, is 0 or over 65,536.
    BadSize,
    /// Memory for the pages was refused.
    Memory,
}

/// Writes the number and the name, as `20 BadSize`.
impl Display for PoolError {
    ghost use Rattle.std.specs.Prelude.{Some};
    ghost use Rattle.page_pool.specs.Words.{error_words};

    ghost output = { λ error. Some (error_words error) };

    fn fmt<W: Write>(&self, f: &mut Formatter<W>) -> fmt::Result {
        f.write_str(match self {
            PoolError::BadSize => "20 BadSize",
            PoolError::Memory => "12 Memory",
        })
    }
}

impl Error for PoolError {}
