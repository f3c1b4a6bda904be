//! An audit of segments of an account as text: it reads their lines one after the other, and refuses one that can't be read, an
//! entry that may not come in a legal account, and a segment that doesn't follow on the one before it.
#![tactic(auto)]

mod audit;
mod copies;
mod course;
mod fault;
mod follow;
mod laws;
mod part;
mod tally;

pub use audit::SegmentAudit;
pub use fault::AuditFault;
pub use laws::{audited_runs_are_legal, audited_segments_are_legal};
pub use segment_text::SegmentLine;
pub use tally::Tally;
