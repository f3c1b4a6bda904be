//! How much was sent and printed by each user, from each host or in each queue, as an account tells it.
#![tactic(auto)]

mod grouping;
mod held;
mod request;
mod rows;
mod table;
mod times;

pub use grouping::Grouping;
pub use request::{AuditRequest, UsageRequest};
pub use rows::Totals;
pub use segment_text::is_time;
pub use table::UsageTable;
pub use times::is_within;
