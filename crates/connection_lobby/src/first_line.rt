//! A connection's first line (RFC 1179, section 5).

ghost use Rattle.std.specs.Prelude.{◌≡◌, ◌≤◌, ◌↔◌, ◌⊎◌, IsTrue, length, Some, true};
ghost use Rattle.connection_lobby.specs.FirstLine.{HasLineFeed};
ghost use Rattle.connection_lobby.specs.declared.first_line.Purpose.TheVariants.{Job, Listing};

/// As many octets as a first line may have: once they have come, no more are waited for.
pub const FIRST_LINE_OCTETS: usize = 1_024;

/// What a connection comes for.
#[derive(Clone, Copy)]
pub enum Purpose {
    /// It brings a job.
    Job,
    /// It asks for a long listing, whose answer may be large.
    Listing,
    /// Any other line: a short listing, a removal, a start, or one that no request has.
    Short,
}

/// Whether a session can look at the line: it has its LF, it is as long as a line can be, or its peer has ended.
pub fn is_whole(octets: &[u8], ended: bool) -> bool
    ensures { IsTrue result ↔ IsTrue ended ⊎ 1024 ≤ length octets.now ⊎ HasLineFeed octets.now }
{
    ended || octets.len() >= FIRST_LINE_OCTETS || octets.contains(&b'\n')
}

/// What a connection comes for, by its first octet.
pub fn purpose_of(first: Option<u8>) -> Purpose
    ensures job { (result ≡ Job) ↔ (first ≡ Some 2) }
    ensures listing { (result ≡ Listing) ↔ (first ≡ Some 4) }
{
    match first {
        Some(2) => Purpose::Job,
        Some(4) => Purpose::Listing,
        _ => Purpose::Short,
    }
}
