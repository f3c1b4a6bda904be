//! Jobs on a disk, each in a file of its own: a job that was kept outlives a crash at any moment.
#![tactic(auto)]

mod folder;
mod keeping;

pub use folder::{Folder, KeepError};
pub use keeping::{append, begin, keep};
