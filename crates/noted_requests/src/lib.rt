//! A session's requests, of which is noted what becomes of its jobs.
#![tactic(auto)]

mod notes;
mod noting;

pub use notes::JobNotes;
pub use noting::Noting;
