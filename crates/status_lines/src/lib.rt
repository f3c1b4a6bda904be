//! The lines of the answer to `status`: how a spool, its sessions, its printers and its jobs stand, as text.
#![tactic(auto)]

mod laws;
mod line;
mod outside;
mod pieces;
mod status;

pub use laws::one_line_has_no_line_feed;
pub use line::{JobPages, PrinterTrouble, QueueState, SpoolState, StatusLine};
pub use outside::{KeptJobs, Outside, SeenSession};
pub use pieces::{one_line, queue_name};
pub use status::{spool_state, status_text};
