//! Why a call of the folder failed.

use job_files::KeptFileName;
use std::error::Error;
use std::fmt::{Debug, Display, Formatter, Write};
use std::{fmt, io};

/// A call of the folder that failed: at which file, and why.
#[derive(Clone, Copy)]
pub struct DiskFault<'a> {
    folder: &'a str,
    name: Option<KeptFileName>,
    /// What the system says of it.
    pub cause: io::Error,
}

impl<'a> DiskFault<'a> {
    /// It failed at a file of this folder, or where none is named at the folder.
    pub(crate) fn new(
        folder: &'a str,
        name: Option<KeptFileName>,
        cause: io::Error,
    ) -> DiskFault<'a> {
        DiskFault {
            folder,
            name,
            cause,
        }
    }

    /// The same without the folder.
    pub fn in_folder(&self) -> InFolder<'_, 'a> {
        InFolder(self)
    }

    /// Whether there was no such file.
    pub fn is_absence(&self) -> bool {
        self.cause.kind() == io::ErrorKind::NotFound
    }
}

/// A fault as whoever knows the folder is told it: at which of its files, and why.
#[derive(Clone, Copy)]
pub struct InFolder<'f, 'a>(&'f DiskFault<'a>);

impl Display for InFolder<'_, '_> {
    fn fmt<W: Write>(&self, f: &mut Formatter<W>) -> fmt::Result {
        let cause = &self.0.cause;
        match &self.0.name {
            Some(name) => write!(f, "{name}: {cause}"),
            None => write!(f, "{cause}"),
        }
    }
}

impl Display for DiskFault<'_> {
    fn fmt<W: Write>(&self, f: &mut Formatter<W>) -> fmt::Result {
        let (folder, cause) = (self.folder, &self.cause);
        match &self.name {
            Some(name) => write!(f, "{folder}/{name}: {cause}"),
            None => write!(f, "{folder}: {cause}"),
        }
    }
}

impl Debug for DiskFault<'_> {
    fn fmt<W: Write>(&self, f: &mut Formatter<W>) -> fmt::Result {
        Display::fmt(self, f)
    }
}

impl Error for DiskFault<'_> {}
