//! What one step of a spool changes, and what it keeps: lemmas for the core's proofs.
//!
//! The lemmas stand in `proofs/`, and no code runs.
#![tactic(auto)]
