//! The octets that are kept of a job: its head, and what a peer sends of it, block by block as its files come; and how these are read.
#![tactic(auto)]

mod laws;

pub use laws::streams_are_read;
