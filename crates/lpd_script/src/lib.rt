//! Runs a script on a spool: a configuration and a script in, acknowledgements and pages out.
#![tactic(auto)]

mod fault;
mod hosts;
mod run;
mod runner;

pub use fault::Fault;
pub use run::{read_all, run_input, run_parts};
