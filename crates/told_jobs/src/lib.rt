//! What is told of held jobs: the texts that answer a question for a queue's state and a removal, and which jobs a list of
//! words chooses for them (RFC 1179, sections 5.3 to 5.5). It is told of any jobs that show what a text needs of them.
#![tactic(auto)]

mod choice;
mod lines;
mod texts;
mod told;
mod words;

pub use choice::{is_picked, may_remove};
pub use texts::{Shown, StateQuery, active, listed, listing, removal_text, state_text};
pub use told::{ToldFile, ToldJob, ToldJobs};
