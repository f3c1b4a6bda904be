//! Why a chain takes no file.

use std::error::Error;
use std::fmt;

/// Why a file wasn't begun.
#[derive(Clone, Copy, Debug, PartialEq, Eq)]
pub enum ChainError {
    /// The job has a file of this name already.
    NameTaken,
    /// The job has as many files as there is room for.
    FilesFull,
}

/// Writes the number and the name, as `7 NameTaken`.
impl fmt::Display for ChainError {
    ghost use Rattle.std.specs.Prelude.{Some};
    ghost use Rattle.page_chain.specs.Words.{error_words};

    ghost output = { λ error. Some (error_words error) };

    fn fmt<W: fmt::Write>(&self, f: &mut fmt::Formatter<W>) -> fmt::Result {
        f.write_str(match self {
            ChainError::NameTaken => "7 NameTaken",
            ChainError::FilesFull => "8 FilesFull",
        })
    }
}

impl Error for ChainError {}
