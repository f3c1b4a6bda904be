//! A job that comes alone to a spool which has room for it is granted all that it asks.
//!
//! The definitions stand in `specs/`; the functions here have empty bodies, and their contracts are laws of them.
#![tactic(auto)]

mod granted;
mod worked;

pub use granted::{lone_jobs_are_served, lone_jobs_are_taken};
pub use worked::{worked_job, worked_room};
