//! Why a folder of segments isn't opened.

use crate::names::SegmentName;
use server_folder::FolderError;
use std::error::Error;
use std::fmt::{Display, Formatter, Write};
use std::{fmt, io};

/// Why a folder isn't opened.
#[derive(Clone, Copy, Debug)]
pub enum AccountOpenError {
    /// The server doesn't get it.
    Folder(FolderError),
    /// The file of the greatest number isn't a whole segment.
    Broken(SegmentName),
    /// What has the name of a temporary file of this one can't be removed: it is no file, say.
    Left(SegmentName, io::Error),
    /// No number is left for a file, or for a run.
    Full,
}

impl From<io::Error> for AccountOpenError {
    fn from(cause: io::Error) -> AccountOpenError {
        AccountOpenError::Folder(FolderError::Failed(cause))
    }
}

impl From<FolderError> for AccountOpenError {
    fn from(error: FolderError) -> AccountOpenError {
        AccountOpenError::Folder(error)
    }
}

impl Display for AccountOpenError {
    fn fmt<W: Write>(&self, f: &mut Formatter<W>) -> fmt::Result {
        match self {
            AccountOpenError::Folder(error) => Display::fmt(error, f),
            AccountOpenError::Broken(name) => write!(
                f,
                "{name} isn't a whole segment: move it away"
            ),
            AccountOpenError::Left(name, cause) => write!(f, "{name}.tmp: {cause}"),
            AccountOpenError::Full => f.write_str("no number is left for a segment"),
        }
    }
}

impl Error for AccountOpenError {}
