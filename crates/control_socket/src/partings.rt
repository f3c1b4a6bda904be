//! Connections that are closed before they were answered, and why.

ghost use Rattle.std.specs.Prelude.{◌≡◌, ◌++◌, Some, codes};
ghost use Rattle.std.specs.Fmt.{decimal};
ghost use Rattle.control_socket.specs.Partings.{text_of};

use std::fmt;
use std::fmt::Display;

/// The number of a connection. No other one of its socket has it, before or after.
#[derive(Clone, Copy, Debug, PartialEq, Eq)]
pub struct TalkNumber(pub(crate) u64);

/// Why a connection is closed before it was answered.
#[derive(Clone, Copy, PartialEq, Eq)]
pub(crate) enum Parting {
    /// Its line didn't come in time.
    LineLate,
    /// Its line is too long.
    LineTooLong,
    /// Another connection has its place.
    PlaceTaken,
    /// It didn't read its answer in time.
    AnswerLate,
    /// Its peer has gone, or ended before its line was whole.
    Gone,
    /// Memory was refused.
    NoMemory,
}

impl Display for Parting {
    ghost output = { λ why. Some (text_of why) };

    fn fmt<W: fmt::Write>(&self, f: &mut fmt::Formatter<W>) -> fmt::Result {
        f.write_str(match self {
            Parting::LineLate => "its line didn't come in time",
            Parting::LineTooLong => "its line is too long",
            Parting::PlaceTaken => "another connection has its place",
            Parting::AnswerLate => "its answer wasn't read in time",
            Parting::Gone => "its peer is gone",
            Parting::NoMemory => "memory was refused",
        })
    }
}

/// A connection that leaves, and why.
#[derive(Clone, Copy)]
pub(crate) struct Left {
    pub(crate) number: TalkNumber,
    pub(crate) why: Parting,
}

impl Display for Left {
    ghost output = { λ left. Some (codes "connection " ++ (decimal left.number.0
        ++ (codes " is closed, " ++ text_of left.why))) };

    fn fmt<W: fmt::Write>(&self, f: &mut fmt::Formatter<W>) -> fmt::Result {
        write!(f, "connection {} is closed, {}", self.number.0, self.why)
    }
}
