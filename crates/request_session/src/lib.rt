//! A session of the line printer daemon protocol (RFC 1179) that runs in a thread of its own: it
//! reads octets, has its receiver's requests carried out, and writes what is due.
//!
//! What carries its requests out may be a seat at a spool that threads share. No lock of it is held
//! while octets are read or written.
#![tactic(auto)]

mod alone;
mod ending;
mod input;
mod requests;
mod session;
mod talk;

pub use alone::serve_alone;
pub use ending::SessionEnd;
pub use input::{BUFFER_SIZE, Input};
pub use lpd_commands::{OctetFault, OctetRead, OctetWrite};
pub use lpd_values::Refusal;
pub use request_calls::Requests;
pub use session::{MOST_READS, serve_by, serve_with};
pub use spool_core::Core;
