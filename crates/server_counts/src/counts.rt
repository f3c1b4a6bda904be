//! What a server counts.

ghost use Rattle.std.specs.Prelude.{◌≡◌};
ghost use Rattle.lpd_values.specs.Refusals.{number_of};
ghost use Rattle.server_counts.specs.Counts.{aborted, connected, failed, finished, nothing, received, refused, removed};

use crate::histogram::Histogram;
use lpd_values::Refusal;

/// What a server counts at its edge since it began. Each number stays at 2 to the 64th less 1 once it is there.
#[derive(Clone, Copy, Debug, PartialEq, Eq)]
pub struct ServerCounts {
    /// The connections that were accepted.
    pub connections: u64,
    /// The jobs that came whole.
    pub received: u64,
    /// The jobs that were printed to their end.
    pub done: u64,
    /// The jobs that were removed once they had come.
    pub removed: u64,
    /// The jobs that a printer failed on.
    pub failed: u64,
    /// The jobs that were given up before they were whole.
    pub aborted: u64,
    /// What was refused, by the number of the refusal.
    pub refused: [u64; 45],
    /// The octets of the data files of the jobs that came whole.
    pub octets_received: u64,
    /// The octets of the data files of the jobs that were printed to their end.
    pub octets_done: u64,
    /// The times from a job's acceptance until it was whole.
    pub arriving: Histogram,
    /// The times from then until it was printed to its end.
    pub printing: Histogram,
}

impl ServerCounts {
    /// Nothing yet.
    pub fn new() -> ServerCounts
        ensures { result ≡ nothing }
    {
        ServerCounts {
            connections: 0,
            received: 0,
            done: 0,
            removed: 0,
            failed: 0,
            aborted: 0,
            refused: [0; 45],
            octets_received: 0,
            octets_done: 0,
            arriving: Histogram::new(),
            printing: Histogram::new(),
        }
    }

    /// A connection was accepted.
    pub fn connect(&mut self)
        ensures { self.new ≡ connected self.old }
    {
        self.connections = self.connections.saturating_add(1);
    }

    /// A job came whole: so many octets, so many milliseconds after it was accepted.
    pub fn receive(&mut self, octets: u64, milliseconds: u64)
        ensures { self.new ≡ received self.old octets milliseconds }
    {
        self.received = self.received.saturating_add(1);
        self.octets_received = self.octets_received.saturating_add(octets);
        self.arriving.note(milliseconds);
    }

    /// A job was printed to its end: so many octets, so many milliseconds after it was whole.
    pub fn finish(&mut self, octets: u64, milliseconds: u64)
        ensures { self.new ≡ finished self.old octets milliseconds }
    {
        self.done = self.done.saturating_add(1);
        self.octets_done = self.octets_done.saturating_add(octets);
        self.printing.note(milliseconds);
    }

    /// A job was removed once it had come.
    pub fn remove(&mut self)
        ensures { self.new ≡ removed self.old }
    {
        self.removed = self.removed.saturating_add(1);
    }

    /// A printer failed on a job.
    pub fn fail(&mut self)
        ensures { self.new ≡ failed self.old }
    {
        self.failed = self.failed.saturating_add(1);
    }

    /// A job was given up before it was whole.
    pub fn abort(&mut self)
        ensures { self.new ≡ aborted self.old }
    {
        self.aborted = self.aborted.saturating_add(1);
    }

    /// A request was refused.
    pub fn refuse(&mut self, refusal: Refusal)
        ensures { self.new ≡ refused self.old (number_of refusal) }
    {
        let count = &mut self.refused[usize::from(refusal.number())];
        *count = count.saturating_add(1);
    }
}
