//! What opens connections to a printer, and what waits between two tries.

ghost use Rattle.std.specs.Prelude.{◌≡◌, ◌≤◌, ℕ, List, [], Option, length, take, IfOk, OnOk, OnErr};
ghost use Rattle.printer_sinks.specs.Connections.{Connection, told, new_connection, longer};

/// A connection wasn't opened, or failed.
#[derive(Clone, Copy, Debug, PartialEq, Eq)]
pub struct ConnectionFault;

/// What opens connections, one at a time, and writes to the newest.
pub trait Dial {
    /// The connections that were opened, the newest first, where the type can tell them.
    ghost connections: { Self → Option (List Connection) };

    /// Opens a connection for a job.
    fn dial(&mut self, job: u64) -> Result<(), ConnectionFault>
        ensures ok { OnOk result (connections self.new
            ≡ told (new_connection job []) (connections self.old)) }
        ensures err { OnErr result (connections self.new ≡ connections self.old) };

    /// Writes octets from the head of the slice to the newest connection, and answers how many.
    fn write(&mut self, octets: &[u8]) -> Result<usize, ConnectionFault>
        ensures within { IfOk result (λ n. n ≤ length octets.now) }
        ensures ok { IfOk result
            (λ n. connections self.new ≡ told (longer (take n octets.now)) (connections self.old)) }
        ensures err { OnErr result (connections self.new ≡ connections self.old) };

    /// Ends the newest connection: says that nothing more is sent, and reads and drops what the printer still sends, for a
    /// time. Whoever opens connections tells by itself of an end that leaves a doubt.
    fn hang_up(&mut self)
        ensures { connections self.new ≡ connections self.old };
}

/// What waits between two tries to reach a printer.
pub trait Pause {
    /// Waits with this job, of which nothing was sent, and answers whether there is to be another try. `tries` counts the
    /// pauses of this job before this one: 0 after its first try.
    fn pause(&mut self, job: u64, tries: u64) -> bool;
}
