//! What stands between a server's sessions and its spool: which way each of their jobs goes, what they leave behind for the server, and
//! what is noted and logged of their jobs.
#![tactic(auto)]

mod asked_job;
mod job_doors;
mod queue_parts;
mod served;
mod session_notes;

pub use asked_job::AskedJob;
pub use job_doors::{JobDoors, is_awaited, is_stopped, is_tried, part_of, place_of, unclaimed};
pub use queue_parts::PartDoors;
pub use served::{HouseSeated, Served};
pub use session_notes::SessionNotes;
