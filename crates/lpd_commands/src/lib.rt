//! The lines of the line printer daemon protocol (RFC 1179): command lines and subcommand lines, read and written, and
//! what a session reads octets from and writes them to.
#![tactic(auto)]

mod command;
mod ends;
mod laws;
mod sub;
mod words;
mod write;

pub use command::{Command, parse_command};
pub use ends::{OctetFault, OctetRead, OctetWrite, write_all};
pub use laws::{
    command_is_decided, command_is_exact, command_is_read_back, sub_is_decided, sub_is_exact,
    sub_is_read_back,
};
pub use lpd_values::{FileName, Octets, Refusal, Words};
pub use sub::{Sub, parse_sub};
pub use write::{write_command, write_sub};
