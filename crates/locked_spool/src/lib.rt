//! A spool's core with its account: each call does one step of the core and writes that step's entry, or none where the
//! answer is one that writes none.
//!
//! It is what the lock of a spool that threads share keeps. Whenever it is free, the account is a legal history and the core
//! is where the account leaves it.
#![tactic(auto)]

mod laws;
mod locked;
mod printing;
mod queue_calls;
mod reading;
mod receiving;
mod rotating;
mod unopened;

pub use account::{Account, Base, Entry, Kind, Segment};
pub use control_file::Control;
pub use laws::accounts_are_outlines;
pub use locked::Locked;
pub use lpd_values::{FileName, Octets, Refusal};
pub use page_pool::{FilledPage, PageTicket};
pub use receiving::Accepted;
pub use rotating::RotateError;
pub use spool_core::{
    Asked, Config, Foreign, HandedPage, Next, Pages, Progress, Receipt, Removal, ReturnedControl,
    ReturnedPage, ReturnedTicket, SeenJob, Snapshot, Started, Unremoved, Vacancy,
};
pub use spool_ledgers::{Blanks, Shares, SpoolLedger};
pub use unopened::Unopened;
