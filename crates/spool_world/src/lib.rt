//! A spool of many sessions, told what to do step by step: hosts connect, their octets arrive in
//! any pieces, printers ask for pages and give them back.
//!
//! What it replies is right by the definitions of `spool_trace`, and after any steps the headline
//! holds of the whole trace.
#![tactic(auto)]

mod connection;
mod printers;
mod requests;
mod run;
mod turning;
mod world;

pub use lpd_values::{Octets, Refusal};
pub use spool_core::{Config, Pages, Unmade};
pub use spool_trace::{Answer, Deed, Given, Progress, Reply, RequestKind, ShownPage, Step};
pub use world::World;
