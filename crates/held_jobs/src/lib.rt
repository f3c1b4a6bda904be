//! What is known of the jobs that a spool holds: who sent each, how far it is, its files, and how many of its pages were lent,
//! handed to printers and brought back.
#![tactic(auto)]

mod file;
mod job;
mod phase;
mod places;

pub use file::DataFile;
pub use job::Job;
pub use phase::Phase;
