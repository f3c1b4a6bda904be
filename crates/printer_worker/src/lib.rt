//! A worker that prints: it takes the pages that a spool hands to one printer, writes each to what
//! prints it, and gives it back.
//!
//! No lock is held while a page is written.
#![tactic(auto)]

mod leaving;
mod sink;
mod worker;

pub use leaving::Leaving;
pub use shared_spool::{HandedPage, PrinterSeat, SharedSpool};
pub use sink::{PrintSink, SinkFault};
pub use spool_ledgers::SpoolLedger;
pub use worker::{Ending, WorkReport, work};
