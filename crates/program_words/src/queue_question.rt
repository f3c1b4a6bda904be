//! What a server is asked of a queue.

ghost use Rattle.std.specs.Prelude.{IsTrue};
ghost use Rattle.lpd_commands.specs.Written.{command_has_line};

use lpd_commands::Command;
use std::net::Ipv4Addr;

/// A server that is called.
#[derive(Clone, Copy, Debug)]
pub struct Server {
    /// Its address.
    pub address: Ipv4Addr,
    /// Its port, 1 to 65,535.
    pub port: u16,
}

/// What a server is asked of a queue: its state, a removal, or that its printers start. It can be asked in one line.
#[derive(Debug, Drop)]
pub struct QueueQuestion {
    /// The server.
    pub server: Server,
    /// What it is asked.
    pub command: Command,
    ghost can_be_asked: { IsTrue (command_has_line command) },
}
