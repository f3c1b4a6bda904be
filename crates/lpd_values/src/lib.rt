//! The values of the line printer daemon protocol (RFC 1179) that its parsers and the histories of a spool both name:
//! octets, words, file names and refusals, with the limits of the protocol.
#![tactic(auto)]

mod kinds;
mod limits;
mod name;
mod names;
mod octets;
mod refusal;

pub use kinds::{all_spaces, all_text, is_digit, is_space};
pub use limits::{
    MAX_CONTROL_TEXT, MAX_COUNT_DIGITS, MAX_FILES, MAX_LINE, MAX_NAME, MAX_OPERAND, MAX_PRINTS,
    MIN_NAME,
};
pub use name::FileName;
pub use names::FileNames;
pub use octets::{Octets, Words};
pub use refusal::Refusal;
