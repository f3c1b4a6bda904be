//! What a server counts at its edge since it began: jobs by what became of them, octets, connections, how long jobs took, and where its
//! pages were over the last hour.
#![tactic(auto)]

mod counts;
mod histogram;
mod hour;

pub use counts::ServerCounts;
pub use histogram::{BOUNDS, Histogram};
pub use hour::{LastHour, Look, MOST_LOOKS};
