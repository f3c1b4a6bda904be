//! What tests of a spool that threads share have in common: the spool opened, jobs by calls through seats, and a sink in memory.
#![tactic(auto)]

mod calls;
mod kept;
mod opened;
mod sink;

pub use calls::{filled, give_back, put, send, take};
pub use kept::{Kept, Page};
pub use opened::{AtSpool, Entries, Host, Sums, open};
pub use printer_worker::{HandedPage, PrintSink, SinkFault};
pub use shared_spool::{Opened, PrinterSeat, SessionSeat, SharedSpool, SpoolLedger};
pub use sink::{Paper, Sink};
