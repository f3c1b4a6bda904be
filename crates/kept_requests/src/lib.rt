//! A spool that keeps: each job that a session sends whole is kept in a folder before the spool below is
//! told that it is whole.
#![tactic(auto)]

mod keeping;
mod requests;
mod serving;

pub use job_hand::{Cause, Folder, Hand, HandStage, KeepError};
pub use keeping::Keeping;
pub use serving::serve_kept;
