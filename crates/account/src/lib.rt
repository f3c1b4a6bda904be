//! The account of a spool: an entry for each event, with each page told by its length and its digest, and what the
//! entries begin from.
#![tactic(auto)]

mod account;
mod after;
mod base;
mod entry;
mod kind;
mod segment;

pub use account::Account;
pub use after::base_after;
pub use base::Base;
pub use config_values::Config;
pub use control_file::Control;
pub use entry::{Act, Entry, Outline, Progress, Sheet, Turn};
pub use kind::Kind;
pub use lpd_values::FileName;
pub use segment::Segment;
