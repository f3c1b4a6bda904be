//! What is asked at a server's control socket, each command as calls of its spool and the lines of its answer.
#![tactic(auto)]

mod commander;
mod queue_commands;

pub use commander::{Commander, end_answer};
