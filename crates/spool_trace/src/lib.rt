//! What a spool of many sessions is told to do and replies, what such a trace says, and which replies are right.
//!
//! The definitions stand in `specs/`; the functions here have empty bodies, and their contracts are laws of them.
#![tactic(auto)]

mod agree;
mod follows;
mod hands;
mod headline;
mod needs;
mod reading;
mod reply;
mod step;

pub use agree::replies_agree;
pub use follows::{break_follows, close_follows, printers_follow, turns_follow};
pub use hands::{jobs_in_hand, other_acts_stay, pages_at_printers, pages_in_hand};
pub use headline::{events_are_legal, headline_holds, pages_add_up, pages_are_as_arrived};
pub use needs::needs_are_due;
pub use reading::{memory_changes_nothing, reader_follows, sessions_are_read, unread_is_the_end};
pub use reply::{Deed, Given, Reply, ShownPage};
pub use spool_calls::Progress;
pub use spool_requests::{Answer, RequestKind};
pub use step::Step;
