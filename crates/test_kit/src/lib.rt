//! What crates of tests share: readers and writers in memory that fail, cut or drip, rows of data, and who runs them.
#![tactic(auto)]

mod ends;
mod lines;
pub mod rows;
mod running;
mod spool;

pub use ends::{Reader, Writer};
pub use lines::all_lines;
pub use lpd_commands::{OctetFault, OctetRead, OctetWrite};
pub use running::{Form, Group, run_groups};
pub use spool::Spool;
