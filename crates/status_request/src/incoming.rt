//! The octets of a request as they come, never more than are allowed.

ghost use Rattle.std.specs.Prelude.{◌≡◌, ◌+◌, ◌<◌, ◌≤◌, ◌++◌, ℕ, List, [], IfOk, OnErr, length, take};
ghost use Rattle.status_request.specs.declared.judged.TheConstants.{MOST_OCTETS};
ghost use Rattle.status_request.specs.Request.{IsReading};

use crate::judged::{MOST_OCTETS, RequestReading, judge};
use std::io;
use std::io::Read;
use std::marker::Model;

/// The octets of a request that have come so far.
#[derive(Drop)]
pub struct Incoming {
    buffer: [u8; MOST_OCTETS],
    count: usize,
}

impl Model for Incoming {
    ghost Value = { List ℕ };

    ghost view = { λ incoming. take incoming.count incoming.buffer };

    ghost invariant = { λ incoming. incoming.count ≤ MOST_OCTETS };
}

impl Incoming {
    /// None yet.
    pub fn new() -> Self
        ensures { result ≡ [] }
    {
        Incoming {
            buffer: [0; MOST_OCTETS],
            count: 0,
        }
    }

    /// Reads once, as much as comes and there is room for. How many octets came; after an `Err` none did.
    pub fn read_from<R: Read>(&mut self, stream: &mut R) -> io::Result<usize>
        ensures grows { IfOk result
            (λ n. (more : List ℕ) × (length more ≡ n) × (self.new ≡ self.old ++ more)) }
        ensures err { OnErr result (self.new ≡ self.old) }
        ensures bounded { length self.new ≤ MOST_OCTETS }
    {
        let count = stream.read(&mut self.buffer[self.count..])?;
        self.count += count;
        Ok(count)
    }

    /// What they ask for of the server of this name.
    pub fn reading(&self, name: &[u8]) -> RequestReading
        ensures { IsReading name.now self.now result }
    {
        judge(&self.buffer[..self.count], name)
    }
}
