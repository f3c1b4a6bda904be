//! The kinds of entries.

ghost use Rattle.std.specs.Prelude.{◌≡◌, ◌≤◌};
ghost use Rattle.account.specs.Kinds.{kind_of, number_of};
ghost use Rattle.account.specs.Seen.{event_seen};

use crate::entry::{Act, Entry, Turn};

/// What an entry is about.
#[derive(Clone, Copy, Debug, PartialEq, Eq)]
pub enum Kind {
    /// A job was accepted.
    Opened = 1,
    /// A page was lent to a session.
    Granted = 2,
    /// A data file began.
    Began = 3,
    /// A page was put into a file.
    Put = 4,
    /// A data file ended.
    FileEnded = 5,
    /// A control file came.
    Controlled = 6,
    /// A job was aborted.
    Aborted = 7,
    /// A page was handed to a printer.
    Handed = 8,
    /// A page was printed.
    Printed = 9,
    /// A page failed at a printer.
    Failed = 10,
    /// The printers of a queue were started.
    Started = 11,
    /// Jobs were removed.
    Removed = 12,
    /// The spool was closed.
    Closed = 13,
}

impl Kind {
    /// The number of a kind, from 1 for Opened to 13 for Closed, in the order in which they are listed.
    pub fn number(self) -> u64
        ensures value { result ≡ number_of self }
        ensures within { result ≤ 13 }
    {
        self as u64
    }
}

impl Entry {
    /// What it is about.
    pub fn kind(&self) -> Kind
        ensures { result ≡ kind_of (event_seen self.now) }
    {
        match self {
            Entry::Opened { .. } => Kind::Opened,
            Entry::OfJob(_, Act::Granted) => Kind::Granted,
            Entry::OfJob(_, Act::Began { .. }) => Kind::Began,
            Entry::OfJob(_, Act::Put { .. }) => Kind::Put,
            Entry::OfJob(_, Act::FileEnded { .. }) => Kind::FileEnded,
            Entry::OfJob(_, Act::Controlled { .. }) => Kind::Controlled,
            Entry::OfJob(_, Act::Aborted) => Kind::Aborted,
            Entry::AtPrinter(_, _, Turn::Handed) => Kind::Handed,
            Entry::AtPrinter(_, _, Turn::Printed(_)) => Kind::Printed,
            Entry::AtPrinter(_, _, Turn::Failed) => Kind::Failed,
            Entry::Removed(_, _) => Kind::Removed,
            Entry::Started(_) => Kind::Started,
            Entry::Closed => Kind::Closed,
        }
    }
}
