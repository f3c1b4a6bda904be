//! What a client of the line printer daemon protocol (RFC 1179) sends: the octets of a job, and the lines that ask for
//! a queue's state and for removals; and how a job is sent, acknowledgement by acknowledgement.
#![tactic(auto)]

mod asking;
mod file;
mod job;
mod part;
mod questions;
mod send;
mod sendable;

pub use asking::{AskFault, ask, ask_silently};
pub use control_file::Control;
pub use file::DataFile;
pub use job::{job_bytes, job_length};
pub use lpd_commands::{Command, FileName, OctetFault, OctetRead, OctetWrite, Octets, Words};
pub use questions::{has_line, remove_bytes, state_bytes};
pub use send::{SendFault, send_job};
pub use sendable::is_sendable;
