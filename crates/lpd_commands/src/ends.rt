//! What a session reads octets from and writes them to.

ghost use Rattle.std.specs.Prelude.{◌≡◌, ◌<◌, ◌≤◌, ℕ, List, Option, length, take, IfOk, OnOk, OnErr};
ghost use Rattle.lpd_commands.specs.Ends.{one_more, Reads, Writes, WritesSome};

/// A reader or a writer failed.
#[derive(Clone, Copy, Debug, PartialEq, Eq)]
pub struct OctetFault;

/// What octets are read from.
pub trait OctetRead {
    /// The octets that are left, where the type can tell them.
    ghost left: { Self → Option (List ℕ) };

    /// How often it failed, up to the last value of a `u64`.
    ghost faults: { Self → ℕ };

    /// How often it was read, also where that failed, up to the last value of a `u64`.
    ghost reads: { Self → ℕ };

    /// Reads some octets into the head of the buffer, and answers how many. For a buffer that isn't empty, 0 is the end.
    fn read(&mut self, into: &mut [u8]) -> Result<usize, OctetFault>
        ensures counts { reads self.new ≡ one_more (reads self.old) }
        ensures within { IfOk result (λ n. n ≤ length into.old) }
        ensures octets { IfOk result
            (λ n. Reads (left self.old) (left self.new) (take n into.new) (length into.old)) }
        ensures ok { OnOk result (faults self.new ≡ faults self.old) }
        ensures err { OnErr result
            ((left self.new ≡ left self.old) × (faults self.new ≡ one_more (faults self.old))) };
}

/// What octets are written to.
pub trait OctetWrite {
    /// The octets that were written, where the type can tell them.
    ghost written: { Self → Option (List ℕ) };

    /// How often it failed, up to the last value of a `u64`.
    ghost faults: { Self → ℕ };

    /// Writes octets from the head of the slice, at least one if there is one, and answers how many.
    fn write(&mut self, octets: &[u8]) -> Result<usize, OctetFault>
        ensures within { IfOk result (λ n. n ≤ length octets.now) }
        ensures some { IfOk result (λ n. 0 < length octets.now → 0 < n) }
        ensures octets { IfOk result
            (λ n. Writes (written self.old) (written self.new) (take n octets.now)) }
        ensures ok { OnOk result (faults self.new ≡ faults self.old) }
        ensures err { OnErr result
            ((written self.new ≡ written self.old)
            × (faults self.new ≡ one_more (faults self.old))) };
}

/// Writes all octets, or fails after some of them.
pub fn write_all<W: OctetWrite>(writer: &mut W, octets: &[u8]) -> Result<(), OctetFault>
    ensures ok { OnOk result
        (Writes (W.written writer.old) (W.written writer.new) octets.now
        × (W.faults writer.new ≡ W.faults writer.old)) }
    ensures err { OnErr result
        (WritesSome (W.written writer.old) (W.written writer.new) octets.now
        × (W.faults writer.new ≡ one_more (W.faults writer.old))) }
{
    let mut done = 0;
    while done < octets.len() {
        done += writer.write(&octets[done..])?;
    }
    Ok(())
}
