//! Why a segment isn't put away.

use crate::names::SegmentName;
use std::error::Error;
use std::fmt::{Debug, Display, Formatter, Write};
use std::{fmt, io};

/// A segment wasn't put away: at which file that failed, and why.
#[derive(Clone, Copy)]
pub struct WriteFault {
    name: Option<SegmentName>,
    /// What the system says of it.
    pub cause: io::Error,
}

impl WriteFault {
    /// It failed at the file that was to get this name, or where none is given at the folder.
    pub(crate) fn new(name: Option<SegmentName>, cause: io::Error) -> WriteFault {
        WriteFault { name, cause }
    }
}

impl Display for WriteFault {
    fn fmt<W: Write>(&self, f: &mut Formatter<W>) -> fmt::Result {
        let cause = &self.cause;
        match &self.name {
            Some(name) => write!(f, "{name}: {cause}"),
            None => Display::fmt(cause, f),
        }
    }
}

impl Debug for WriteFault {
    fn fmt<W: Write>(&self, f: &mut Formatter<W>) -> fmt::Result {
        Display::fmt(self, f)
    }
}

impl Error for WriteFault {}
