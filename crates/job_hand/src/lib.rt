//! The job that a session has in hand, whose octets go into a folder as they come.
#![tactic(auto)]

mod cause;
mod hand;
mod known;

pub use cause::Cause;
pub use hand::{Hand, HandStage};
pub use kept_jobs::{Folder, KeepError};
pub use known::{Known, KnownPart};
