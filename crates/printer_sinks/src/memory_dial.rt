//! A printer in memory, for tests.

ghost use Rattle.std.specs.Prelude.{◌≡◌, [], Some, take, OnOk, OnErr, IfOk, ◌++◌, ◌<◌, length};
ghost use Rattle.printer_sinks.specs.Connections.{longer};
ghost use Rattle.printer_sinks.specs.Memory.{memory_connections};

use crate::dial::{ConnectionFault, Dial};
use std::alloc::Global;

/// A connection that was opened.
#[derive(Drop)]
pub struct MemoryConnection {
    /// The job that it was opened for.
    pub job: u64,
    /// The octets that it took.
    pub took: Vec<u8>,
}

/// What the printer does at a call.
#[derive(Clone, Copy, Debug, PartialEq, Eq)]
pub enum DialTurn {
    /// It fails.
    Fail,
    /// It takes N octets at most; at a dial, it opens the connection.
    Take(usize),
}

/// A printer that keeps what each connection took, and does at each call what it is told; once no turn is left, it takes all.
#[derive(Drop)]
pub struct MemoryDial {
    alloc: Global,
    connections: Vec<MemoryConnection>,
    turns: Vec<DialTurn>,
    calls: usize,
    is_open: bool,
}

impl MemoryDial {
    /// A printer with these turns.
    pub fn new(alloc: Global, turns: Vec<DialTurn>) -> MemoryDial
        ensures { result.connections.items ≡ [] }
    {
        MemoryDial {
            alloc,
            connections: Vec::new(alloc),
            turns,
            calls: 0,
            is_open: false,
        }
    }

    /// The connections, the newest first.
    pub fn connections(&self) -> &[MemoryConnection]
        ensures { result.now ≡ self.now.connections.items }
    {
        &self.connections
    }

    fn turn(&mut self) -> DialTurn
        ensures { self.new.connections.items ≡ self.old.connections.items }
    {
        let turn = self.turns.get(self.calls).copied();
        self.calls = self.calls.saturating_add(1);
        turn.unwrap_or(DialTurn::Take(usize::MAX))
    }
}

/// Adds octets to the newest connection.
fn add(connections: &mut Vec<MemoryConnection>, octets: &[u8]) -> Result<(), ConnectionFault>
    ensures ok { OnOk result (memory_connections connections.new.items
        ≡ longer octets.now (memory_connections connections.old.items)) }
    ensures err { OnErr result (memory_connections connections.new.items
        ≡ memory_connections connections.old.items) }
{
    if connections.is_empty() {
        return Err(ConnectionFault);
    }
    let connection = &mut connections[0];
    if connection.took.extend_from_slice(octets).is_err() {
        return Err(ConnectionFault);
    }
    Ok(())
}

impl Dial for MemoryDial {
    ghost connections = { λ dial. Some (memory_connections dial.connections.items) };

    fn dial(&mut self, job: u64) -> Result<(), ConnectionFault> {
        if self.turn() == DialTurn::Fail {
            return Err(ConnectionFault);
        }
        let connection = MemoryConnection {
            job,
            took: Vec::new(self.alloc),
        };
        if self.connections.insert(0, connection).is_err() {
            return Err(ConnectionFault);
        }
        self.is_open = true;
        Ok(())
    }

    fn write(&mut self, octets: &[u8]) -> Result<usize, ConnectionFault> {
        let DialTurn::Take(most) = self.turn() else {
            return Err(ConnectionFault);
        };
        if !self.is_open {
            return Err(ConnectionFault);
        }
        let count = most.min(octets.len());
        add(&mut self.connections, &octets[..count])?;
        Ok(count)
    }

    fn hang_up(&mut self) {
        self.is_open = false;
    }
}
