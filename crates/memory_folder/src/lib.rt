//! A folder in memory for tests, which tells all, fails from some call on, and loses in a crash what isn't synced.
#![tactic(auto)]

mod file;
mod memory;

pub use file::{Crash, DiskFile};
pub use memory::{FileEnd, GoneFile, MemoryFolder};
