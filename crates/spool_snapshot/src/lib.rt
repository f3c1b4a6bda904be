//! A spool as it was at one moment: plain data, with which the spool's lock isn't held any more.
#![tactic(auto)]

mod job;
mod order;
mod snapshot;

pub use claims::Table;
pub use held_jobs::Phase;
pub use job::{SeenJob, seen_job};
pub use snapshot::{Pages, Snapshot};
pub use spool_calls::Printer;
