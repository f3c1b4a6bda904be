//! How printers visit jobs: a law of every history of a spool in which each event met its conditions.
//!
//! The statements stand in `specs/`; the function here has an empty body, and its contract is the law.
#![tactic(auto)]

mod laws;

pub use laws::visited_once;
