//! What happened to a spool, what a list of events says of each job and printer, and what must hold of it.
//!
//! The definitions stand in `specs/`, and no code runs.
#![tactic(auto)]
