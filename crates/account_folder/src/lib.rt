//! A folder of the operating system in which each segment of an account becomes a file of its own: `segment-NNNNNNNNNN`.
#![tactic(auto)]

mod fault;
mod folder;
mod listing;
mod looking;
mod names;
mod opening;
mod reading;
mod stamps;
mod writing;

pub use fault::WriteFault;
pub use folder::{AccountFolder, PutAway};
pub use looking::{AccountState, look};
pub use names::SegmentName;
pub use opening::AccountOpenError;
