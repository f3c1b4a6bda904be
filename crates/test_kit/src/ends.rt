//! Ends of octets in memory, which fail where they are told to.

ghost use Rattle.std.specs.Prelude.{Some};

use lpd_commands::{OctetFault, OctetRead, OctetWrite};
use std::alloc::Global;

/// Gives octets that lie in memory, and tells which are left.
#[derive(Drop)]
pub struct Reader<'a> {
    /// The octets that are left.
    pub rest: &'a [u8],
    /// How many octets it gives at once, at most; 0 stands for 1.
    pub piece: usize,
    /// The number of the call that fails, from 1, or 0.
    pub fails: u64,
    /// Whether each call fails where no octet is left.
    pub breaks: bool,
    /// How often it was called.
    pub calls: u64,
    /// How often it failed.
    pub faults: u64,
}

impl<'a> Reader<'a> {
    /// A reader of these octets, so many at once, of which the call of this number fails.
    pub fn new(rest: &'a [u8], piece: usize, fails: u64) -> Reader<'a> {
        Reader {
            rest,
            piece,
            fails,
            breaks: false,
            calls: 0,
            faults: 0,
        }
    }
}

impl OctetRead for Reader<'_> {
    ghost left = { λ reader. Some reader.rest.now };

    ghost faults = { λ reader. reader.faults };

    ghost reads = { λ reader. reader.calls };

    fn read(&mut self, into: &mut [u8]) -> Result<usize, OctetFault> {
        self.calls = self.calls.saturating_add(1);
        if self.calls == self.fails || self.breaks && self.rest.is_empty() {
            self.faults = self.faults.saturating_add(1);
            return Err(OctetFault);
        }
        let count = self.rest.len().min(into.len()).min(self.piece.max(1));
        let (head, rest) = self.rest.split_at(count);
        into[..count].copy_from_slice(head);
        self.rest = rest;
        Ok(count)
    }
}

/// Keeps the octets that are written to it.
#[derive(Drop)]
pub struct Writer {
    /// The octets that were written.
    pub octets: Vec<u8>,
    /// How many octets it takes at once, at most; 0 stands for 1.
    pub piece: usize,
    /// The number of the call that fails, from 1, or 0.
    pub fails: u64,
    /// How often it was called.
    pub calls: u64,
    /// How often it failed.
    pub faults: u64,
}

impl Writer {
    /// A writer to which nothing was written, which takes so many octets at once, and of which the call of this number fails.
    pub fn new(alloc: Global, piece: usize, fails: u64) -> Writer {
        Writer {
            octets: Vec::new(alloc),
            piece,
            fails,
            calls: 0,
            faults: 0,
        }
    }
}

impl OctetWrite for Writer {
    ghost written = { λ writer. Some writer.octets.items };

    ghost faults = { λ writer. writer.faults };

    fn write(&mut self, octets: &[u8]) -> Result<usize, OctetFault> {
        self.calls = self.calls.saturating_add(1);
        let count = octets.len().min(self.piece.max(1));
        if self.calls == self.fails || self.octets.extend_from_slice(&octets[..count]).is_err() {
            self.faults = self.faults.saturating_add(1);
            return Err(OctetFault);
        }
        Ok(count)
    }
}
