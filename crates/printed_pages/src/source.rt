//! Where a printer's octets are read again.

ghost use Rattle.std.specs.Prelude.{◌≡◌, ◌≤◌, ◌<◌, ◌^◌, ℕ, true, IfOk, IfSome, List, Option, length, take};
ghost use Rattle.lpd_commands.specs.Ends.{IsReadOut, Reads, Took};
ghost use Rattle.printed_pages.specs.Sources.{IsAt, IsPart};

use crate::page::Differs;
use std::alloc::AllocError;

/// Where a printer's octets are read again.
pub trait PrintedOctets {
    /// The octets of the file, where the type can tell them.
    ghost octets: { Self → Option (List ℕ) };

    /// Those with which the next read begins, where the type can tell them.
    ghost rest: { Self → Option (List ℕ) };

    /// Goes on to this octet from the start of the file. `false` where it can't.
    fn go_to(&mut self, at: u64) -> bool
        ensures there { result ≡ true → IsAt at (octets self.old) (rest self.new) }
        ensures octets { octets self.new ≡ octets self.old };

    /// Reads up to as many octets as the buffer has, and tells how many: 0 at the end of the file. None at a fault.
    fn read(&mut self, buffer: &mut [u8]) -> Option<usize>
        ensures within { IfSome result (λ n. n ≤ length buffer.old) }
        ensures given { IfSome result
            (λ n. Reads (rest self.old) (rest self.new) (take n buffer.new) (length buffer.old)) }
        ensures octets { octets self.new ≡ octets self.old };
}

/// Why a page isn't told as printed.
#[derive(Clone, Copy, Debug, PartialEq, Eq)]
pub enum TrailFault {
    /// What is read differs from it.
    Differs(Differs),
    /// The octets couldn't be read again.
    Unread,
    /// Memory was refused.
    Memory,
}

impl From<AllocError> for TrailFault {
    ghost use Rattle.std.specs.Prelude.{◌≡◌};
    ghost use Rattle.printed_pages.specs.declared.source.TrailFault.TheVariants.{Memory};

    ghost from_gives = { λ _ r. r ≡ Memory };

    fn from(_: AllocError) -> TrailFault {
        TrailFault::Memory
    }
}

impl From<Differs> for TrailFault {
    ghost use Rattle.std.specs.Prelude.{◌≡◌};
    ghost use Rattle.printed_pages.specs.declared.source.TrailFault.TheVariants as fault;

    ghost from_gives = { λ d r. r ≡ fault.Differs d };

    fn from(differs: Differs) -> TrailFault {
        TrailFault::Differs(differs)
    }
}

/// Reads until the buffer is full or the file ends, and tells how many octets. None where a read fails.
fn read_full<P: PrintedOctets>(source: &mut P, buffer: &mut [u8]) -> Option<usize>
    ensures within { IfSome result (λ n. n ≤ length buffer.new) }
    ensures took { IfSome result
        (λ n. Took (P.rest source.old) (P.rest source.new) (take n buffer.new)) }
    ensures out { IfSome result (λ n. n < length buffer.new → IsReadOut (P.rest source.new)) }
    ensures octets { P.octets source.new ≡ P.octets source.old }
{
    let mut count = 0;
    while count < buffer.len() {
        let more = source.read(&mut buffer[count..])?;
        if more == 0 {
            break;
        }
        count += more;
    }
    Some(count)
}

/// Reads from an octet on until the buffer is full or the file ends, and tells how many octets. None where they can't be read.
pub(crate) fn read_at<P: PrintedOctets>(source: &mut P, at: u64, buffer: &mut [u8]) -> Option<usize>
    ensures within { IfSome result (λ n. n ≤ length buffer.new) }
    ensures room { length buffer.new ≡ length buffer.old }
    ensures read { IfSome result
        (λ n. IsPart at (P.octets source.old) (take n buffer.new) (length buffer.new)) }
    ensures octets { P.octets source.new ≡ P.octets source.old }
{
    if !source.go_to(at) {
        return None;
    }
    read_full(source, buffer)
}
