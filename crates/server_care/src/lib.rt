//! Who looks after a server: the thread that has done what is asked at its control socket, and what signals ask; and the server's end.
#![tactic(auto)]

mod care;
mod commands;
mod counter;
mod stewarding;
mod stopping;

pub use care::Care;
pub use commands::{Commands, Reply};
pub use counter::Counter;
