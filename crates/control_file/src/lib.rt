//! Control files (RFC 1179, section 7): what a job prints, for whom and from where.
#![tactic(auto)]

mod control;
mod laws;
mod lines;
mod write;

pub use control::Control;
pub use laws::{control_is_decided, control_is_exact, control_is_read_back};
pub use lpd_values::{FileName, FileNames, Octets, Refusal};
