//! What a spool of many sessions is told to do.

use lpd_values::Octets;

/// One step. Sessions have the numbers 1, 2 and so on, in order of connection; printers have those of the
/// configuration.
#[derive(Drop)]
pub enum Step {
    /// A host connects, for which this number stands.
    Connect { sender: u32 },
    /// Octets arrive on a session.
    Arrive { session: usize, octets: Octets },
    /// A session does the next thing that is due.
    Turn { session: usize },
    /// The connection of a session breaks.
    Break { session: usize },
    /// A printer asks for a page.
    Next { printer: u32 },
    /// A printer has printed the page that it holds.
    Printed { printer: u32 },
    /// A printer failed on the page that it holds.
    Failed { printer: u32 },
    /// The spool is closed.
    Shutdown,
}
