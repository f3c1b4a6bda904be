//! A session of the line printer daemon protocol (RFC 1179) that runs in a thread of its own: it
//! reads octets, does what its receiver needs through its seat at a spool that threads share, and
//! writes what is due.
//!
//! No lock is held while octets are read or written.
#![tactic(auto)]

mod seated;
mod session;

pub use lpd_values::Refusal;
pub use request_session::{
    BUFFER_SIZE, Input, MOST_READS, OctetFault, OctetRead, OctetWrite, Requests, SessionEnd,
    serve_with,
};
pub use seated::Seated;
pub use session::serve;
pub use shared_spool::{SessionSeat, SharedSpool};
pub use spool_ledgers::SpoolLedger;
