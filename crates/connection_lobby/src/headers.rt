//! The header by which a proxy tells whom a connection comes from (the PROXY protocol, versions 1 and 2), before anything else of
//! that connection is looked at.

ghost use Rattle.std.specs.Prelude.{◌≡◌, ◌++◌, Some, codes, length};
ghost use Rattle.proxy_header.specs.Reading.{header_of};
ghost use Rattle.connection_lobby.specs.Headers.{why, word_of};

use proxy_header::{Header, MOST_LENGTH, read_header};
use std::fmt;
use std::fmt::Display;

/// The most octets that a header has: those in front of what has a length, and these.
pub(crate) const MOST_HEADER: usize = 16 + MOST_LENGTH;

/// For how many seconds the header of a connection is waited for. It is a time of its own, since `--silence` is of sessions, and is off
/// unless it is asked for. While the header is waited for, the connection counts as silent, and leaves first where there is no room.
pub(crate) const HEADER_SECONDS: u64 = 3;

/// Why a connection that a proxy has brought is closed.
#[derive(Clone, Copy, PartialEq, Eq)]
pub(crate) enum HeaderFault {
    /// What it begins with is no header, or has more than `MOST_HEADER` octets.
    Bad,
    /// It says that the connection doesn't come by TCP over IPv4.
    Elsewhere,
    /// The connection ended in the middle of it.
    Cut,
    /// It wasn't whole after `HEADER_SECONDS` seconds.
    Late,
}

impl HeaderFault {
    /// The fault in words.
    fn why(self) -> &'static str
        ensures { result.now ≡ why self }
    {
        match self {
            HeaderFault::Bad => "it is bad",
            HeaderFault::Elsewhere => "it names no IPv4 address",
            HeaderFault::Cut => "the connection ended in the middle of it",
            HeaderFault::Late => "it hasn't come within 3 s",
        }
    }
}

impl Display for HeaderFault {
    ghost output = { λ fault. Some (codes "closed for its PROXY header: " ++ why fault) };

    fn fmt<W: fmt::Write>(&self, f: &mut fmt::Formatter<W>) -> fmt::Result {
        let why = self.why();
        write!(f, "closed for its PROXY header: {why}")
    }
}

/// What is known of the header of a connection.
#[derive(Clone, Copy, PartialEq, Eq)]
pub(crate) enum HeaderWord {
    /// It isn't whole.
    Waits,
    /// The connection comes from this address and port; the header has so many octets.
    From([u8; 4], u16, usize),
    /// The proxy speaks for itself, or doesn't say for whom; the header has so many octets.
    Itself(usize),
    /// The connection ended with nothing sent.
    Nothing,
    /// There is none that counts.
    Fault(HeaderFault),
}

/// What these octets, with which a connection begins, say of whom it comes from; `is_ended` where no more come.
pub(crate) fn read_word(octets: &[u8], is_ended: bool) -> HeaderWord
    ensures { result ≡ word_of (header_of octets.now) (length octets.now) is_ended }
{
    match read_header(octets) {
        Header::Source(address, port, count) => HeaderWord::From(address, port, count),
        Header::Local(count) => HeaderWord::Itself(count),
        Header::Unsupported => HeaderWord::Fault(HeaderFault::Elsewhere),
        Header::Bad => HeaderWord::Fault(HeaderFault::Bad),
        Header::More if !is_ended => HeaderWord::Waits,
        Header::More if octets.is_empty() => HeaderWord::Nothing,
        Header::More => HeaderWord::Fault(HeaderFault::Cut),
    }
}
