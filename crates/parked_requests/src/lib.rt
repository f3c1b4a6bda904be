//! A session's requests, where a job goes through the spool or beside it, into a folder alone; or where each queue has a part of the spool.
#![tactic(auto)]

mod in_hand;
mod lone;
mod own_page;
mod parking;
mod parks;
mod parted;
mod requests;
mod through;
mod ways;

pub use in_hand::{BESIDE, JobInHand};
pub use lone::LoneJob;
pub use own_page::OwnPage;
pub use parking::Parking;
pub use parks::Parks;
pub use parted::{Parted, QueueParts};
pub use through::Through;
pub use ways::{JobWays, OpenedJob, is_full};
