//! Why words ask for nothing.

ghost use Rattle.std.specs.Prelude.{◌≡◌};
ghost use Rattle.program_words.specs.declared.word_fault.WordFault.TheVariants.{Memory};

use program_edge::FaultName;
use std::alloc::{AllocError, AllocFailed};
use thiserror::Error;

/// Why words name no job, no server, no question or no command for one.
#[derive(Debug, PartialEq, Eq, Drop, Error)]
pub enum WordFault {
    /// The queue is no word of 1 to 1,022 octets.
    #[error("QUEUE isn't 1 to 1022 octets without white space")]
    Queue,
    /// The host is no part of a file name.
    #[error("HOST isn't 1 to 120 octets without white space")]
    Host,
    /// The user can't stand in a control file.
    #[error("USER isn't 1 to 255 octets in one line")]
    User,
    /// There are no files, or too many.
    #[error("FILE doesn't stand 1 to 52 times")]
    Files,
    /// The number has more than three digits.
    #[error("NUMBER isn't 0 to 999")]
    Number,
    /// The address to listen on isn't one.
    #[error("the ADDRESS of --bind isn't four numbers of 0 to 255 with points between")]
    Address,
    /// The address of a server isn't one.
    #[error("--server isn't four numbers of 0 to 255 with points between")]
    Server,
    /// What a server is asked has no line.
    #[error("QUEUE, AGENT and LIST aren't words without white space in a line of at most 1023 octets")]
    Line,
    /// This text names no network.
    #[error("'{0}' is no NETWORK: an IPv4 address, or one with / and 0 to 32 behind it, no bit of which is set behind those")]
    Network(String),
    /// The path of a control socket has more octets than one may have.
    #[error("'{0}' is no PATH of a socket: it has more than 107 octets")]
    Control(String),
    /// This text names no form of the log's lines.
    #[error("'{0}' is no FORM of the log: time or journal")]
    Log(String),
    /// This text names no place for the status.
    #[error("'{0}' is no [ADDRESS:]PORT of the status: a port, 1 to 65535, or an IPv4 address, a colon and a port")]
    Status(String),
    /// This text is no name of a host.
    #[error("'{0}' is no NAME of a host: 1 to 253 letters, digits, - and .")]
    StatusHost(String),
    /// A name is given for the status, which is shown nowhere.
    #[error("--status-host is given without --status")]
    NoStatus,
    /// This text says nothing of a printer.
    #[error("'{0}' is no PRINTER=PLACE: a printer's number from 1, its queue or QUEUE.N, and file:PATH, folder:PATH or socket://A.B.C.D with or without a port :1 to :65535 behind it")]
    Printer(String),
    /// This text names a printer as another does.
    #[error("'{0}' is a second PLACE for its printer")]
    PrinterTwice(String),
    /// The words behind the path of a control socket are no command.
    #[error("the words behind PATH are no command: they are status, start QUEUE, hold QUEUE, release QUEUE, remove QUEUE NUMBER, remove QUEUE USER, cancel job NUMBER, cancel file NUMBER, resend NUMBER, resend all, resend all QUEUE, rotate, stop, stop SECONDS or stop now")]
    Command,
    /// This text is no digest.
    #[error("'{0}' is no DIGEST: 64 hexadecimal digits")]
    Digest(String),
    /// This text names nothing that usage is told by.
    #[error("'{0}' is no GROUPING: user, host or queue")]
    Grouping(String),
    /// This text is no time.
    #[error("'{0}' is no TIME: as 2026-11-26T22:00:00Z, in UTC and to the second")]
    Time(String),
    /// A word isn't there.
    #[error("a word is missing")]
    Missing,
    /// Memory was refused.
    #[error("{}", FaultName::Memory)]
    Memory,
}

impl From<AllocError> for WordFault {
    ghost from_gives = { λ _ fault. fault ≡ Memory };

    fn from(_error: AllocError) -> WordFault {
        WordFault::Memory
    }
}

impl<T: Drop> From<AllocFailed<T>> for WordFault {
    ghost from_gives = { λ _ fault. fault ≡ Memory };

    fn from(_failed: AllocFailed<T>) -> WordFault {
        WordFault::Memory
    }
}
