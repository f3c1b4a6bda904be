//! The refusals that a peer can be given.

ghost use Rattle.std.specs.Prelude.{◌≡◌};
ghost use Rattle.lpd_values.specs.Refusals.{name_of, number_of, octet_of};

use std::alloc::{AllocError, AllocFailed};
use std::error::Error;
use std::fmt;

/// Why a request of a peer is refused. Each has a number of this product's own, which is printed, and an
/// acknowledgement octet, which is sent (RFC 1179, section 6).
#[derive(Clone, Copy, Debug, PartialEq, Eq)]
pub enum Refusal {
    /// The queue isn't configured.
    UnknownQueue = 1,
    /// As many jobs are held as there may be.
    TableFull = 2,
    /// The account has no room for one job more.
    AccountFull = 3,
    /// The spool was closed.
    Closed = 4,
    /// The job would hold more pages than its queue allows.
    OverClaim = 5,
    /// The job has a control file already.
    ControlTwice = 6,
    /// The job has a data file of that name already.
    NameTaken = 7,
    /// The job has as many data files as it may have.
    FilesFull = 8,
    /// A data file of the job is open.
    FileOpen = 9,
    /// The job isn't being received, or nothing is open where the request needs it.
    NotOpen = 10,
    /// Memory was refused.
    Memory = 12,
    /// The line has no code, or one that isn't known.
    BadCode = 30,
    /// The line isn't laid out as its code asks.
    BadLine = 31,
    /// The line has more than 1,023 octets.
    LineTooLong = 32,
    /// The count isn't 1 to 19 decimal digits, or it is 0 for a data file.
    BadCount = 33,
    /// The name isn't a file name of the kind that is due.
    BadName = 34,
    /// A file isn't followed by an octet of zeros.
    NoZero = 35,
    /// The control file has no line for the host.
    NoHost = 40,
    /// The control file has no line for the user.
    NoUser = 41,
    /// The control file has no line that prints a file.
    NoPrintLine = 42,
    /// The control file has more than `MAX_PRINTS` lines that print a file.
    TooManyPrints = 43,
    /// A control file, its host or its user has a length that isn't allowed.
    BadLength = 44,
}

impl Refusal {
    /// The number of the refusal, 1 to 44.
    pub fn number(self) -> u8
        ensures { result ≡ number_of self }
    {
        self as u8
    }

    /// Its name, as it is printed.
    fn name(self) -> &'static str
        ensures { result.now ≡ name_of self }
    {
        match self {
            Refusal::UnknownQueue => "UnknownQueue",
            Refusal::TableFull => "TableFull",
            Refusal::AccountFull => "AccountFull",
            Refusal::Closed => "Closed",
            Refusal::OverClaim => "OverClaim",
            Refusal::ControlTwice => "ControlTwice",
            Refusal::NameTaken => "NameTaken",
            Refusal::FilesFull => "FilesFull",
            Refusal::FileOpen => "FileOpen",
            Refusal::NotOpen => "NotOpen",
            Refusal::Memory => "Memory",
            Refusal::BadCode => "BadCode",
            Refusal::BadLine => "BadLine",
            Refusal::LineTooLong => "LineTooLong",
            Refusal::BadCount => "BadCount",
            Refusal::BadName => "BadName",
            Refusal::NoZero => "NoZero",
            Refusal::NoHost => "NoHost",
            Refusal::NoUser => "NoUser",
            Refusal::NoPrintLine => "NoPrintLine",
            Refusal::TooManyPrints => "TooManyPrints",
            Refusal::BadLength => "BadLength",
        }
    }

    /// The acknowledgement octet that a session writes: 1 where the request is refused for good, 2 where it may be
    /// granted later.
    pub fn octet(self) -> u8
        ensures { result ≡ octet_of self }
    {
        match self {
            Refusal::TableFull
            | Refusal::AccountFull
            | Refusal::Closed
            | Refusal::NotOpen
            | Refusal::Memory => 2,
            _ => 1,
        }
    }
}

/// Writes the number and the name, as `1 UnknownQueue`.
impl fmt::Display for Refusal {
    ghost use Rattle.std.specs.Prelude.{Some};
    ghost use Rattle.lpd_values.specs.Refusals.{refusal_words};

    ghost output = { λ refusal. Some (refusal_words refusal) };

    fn fmt<W: fmt::Write>(&self, f: &mut fmt::Formatter<W>) -> fmt::Result {
        write!(f, "{} {}", self.number(), self.name())
    }
}

impl Error for Refusal {}

impl From<AllocError> for Refusal {
    ghost use Rattle.std.specs.Prelude.{◌≡◌};
    ghost use Rattle.lpd_values.specs.declared.refusal.Refusal.TheVariants.{Memory};

    ghost from_gives = { λ _ e. e ≡ Memory };

    fn from(_error: AllocError) -> Refusal {
        Refusal::Memory
    }
}

impl<T: Drop> From<AllocFailed<T>> for Refusal {
    ghost use Rattle.std.specs.Prelude.{◌≡◌};
    ghost use Rattle.lpd_values.specs.declared.refusal.Refusal.TheVariants.{Memory};

    ghost from_gives = { λ _ e. e ≡ Memory };

    fn from(_failed: AllocFailed<T>) -> Refusal {
        Refusal::Memory
    }
}
