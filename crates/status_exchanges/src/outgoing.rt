//! The octets of a response as they go, each once.

ghost use Rattle.std.specs.Prelude.{◌≡◌, ◌↔◌, ◌≤◌, ℕ, List, [], IfOk, IsTrue, OnErr, drop, length, string_bytes};
ghost use Rattle.status_exchanges.specs.Outgoing.{LosesFront};

use std::io;
use std::io::Write;
use std::marker::Model;

/// The octets of a response that haven't gone so far.
#[derive(Drop)]
pub struct Outgoing {
    response: String,
    sent: usize,
}

impl Model for Outgoing {
    ghost Value = { List ℕ };

    ghost view = { λ outgoing. drop outgoing.sent (string_bytes outgoing.response) };

    ghost invariant = { λ outgoing. outgoing.sent ≤ length (string_bytes outgoing.response) };
}

impl Outgoing {
    /// All of a response.
    pub fn new(response: String) -> Self
        ensures { result ≡ string_bytes response }
    {
        Outgoing { response, sent: 0 }
    }

    /// Writes once, as much as is taken. How many octets went; after an `Err` none did.
    pub fn write_to<W: Write>(&mut self, stream: &mut W) -> io::Result<usize>
        ensures goes { IfOk result (LosesFront self.old self.new) }
        ensures err { OnErr result (self.new ≡ self.old) }
    {
        let count = stream.write(&self.response.as_bytes()[self.sent..])?;
        self.sent += count;
        Ok(count)
    }

    /// Whether all have gone.
    pub fn is_gone(&self) -> bool
        ensures { IsTrue result ↔ (self.now ≡ []) }
    {
        self.sent == self.response.len()
    }
}
