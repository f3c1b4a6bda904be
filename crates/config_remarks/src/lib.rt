//! What is remarked of a configuration, for people: where a fault of it stands and what is wrong there, and which keys are none.
//!
//! A fault's own line, which scripts read, stays as it is to the letter. A remark is a line of the log before it.
#![tactic(auto)]

mod faults;
mod keys;
mod layout;

pub use faults::{tell_fault, tell_places_fault};
pub use keys::warn_of_keys;
