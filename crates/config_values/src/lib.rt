//! What a spool is made for: its pages, its queues and their printers.
#![tactic(auto)]

mod config;
mod queue;

pub use config::Config;
pub use queue::Queue;
