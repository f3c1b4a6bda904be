//! What is told of accounts that stand in files: whether they are legal and were printed so, and who used how much.
#![tactic(auto)]

mod auditing;
mod cells;
mod counting;
mod fault;
mod files;
mod folders;
mod line_reader;
mod notes;
mod places;
mod printers;
mod rereading;

pub use account_usage::{AuditRequest, Grouping, UsageRequest};
pub use auditing::{AUDIT, audit};
pub use counting::usage;
