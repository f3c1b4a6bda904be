//! Why a server doesn't get a folder.

ghost use Rattle.std.specs.Prelude.{◌≡◌};
ghost use Rattle.server_folder.specs.Told.{in_use_text};

use std::error::Error;
use std::fmt::{Display, Formatter, Write};
use std::{fmt, io};

/// What a server has a folder for.
#[derive(Clone, Copy, Debug)]
pub enum FolderUse {
    /// It keeps its jobs there until they are printed.
    Jobs,
    /// The segments of its account become files there.
    Account,
}

impl FolderUse {
    /// What is told where another server has the folder for this.
    pub fn in_use_text(self) -> &'static str
        ensures { result.now ≡ in_use_text self }
    {
        match self {
            FolderUse::Jobs => "another server keeps its jobs there",
            FolderUse::Account => "another server writes its account there",
        }
    }
}

/// Why a server doesn't get a folder.
#[derive(Clone, Copy, Debug)]
pub enum FolderError {
    /// Another server has it, for this.
    InUse(FolderUse),
    /// The system says why.
    Failed(io::Error),
}

impl From<io::Error> for FolderError {
    fn from(cause: io::Error) -> FolderError {
        FolderError::Failed(cause)
    }
}

impl Display for FolderError {
    fn fmt<W: Write>(&self, f: &mut Formatter<W>) -> fmt::Result {
        match self {
            FolderError::InUse(purpose) => f.write_str(purpose.in_use_text()),
            FolderError::Failed(cause) => Display::fmt(cause, f),
        }
    }
}

impl Error for FolderError {}
