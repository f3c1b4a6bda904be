//! Requests for the status of a server: HTTP/1.1's GET and HEAD of two resources, from octets that come in pieces.
#![tactic(auto)]

mod asked;
mod authority;
mod hosts;
mod incoming;
mod judged;
mod target;

pub use asked::{Method, Resource};
pub use incoming::Incoming;
pub use judged::{MOST_FIELDS, MOST_OCTETS, RequestReading, RequestRefusal, judge};
