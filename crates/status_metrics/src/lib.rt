//! What Prometheus reads of a server, in its text format 0.0.4.
#![tactic(auto)]

mod family;
mod histogram;
mod kind;
mod queues;
mod server;
mod whole;

pub use whole::metrics;
