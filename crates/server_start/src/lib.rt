//! What a server warns of and opens at its start: its printers' files, its folders, whether as many descriptors are free as it takes, and its
//! spool; and what it ends with.
#![tactic(auto)]

mod descriptors;
mod spool;
mod stores;
mod threads;
mod warnings;

pub use descriptors::{Takers, check_descriptors};
pub use spool::{Stock, finish, open_spool};
pub use stores::{Stores, keep_room, open_stores};
pub use threads::{join_all, keep};
pub use warnings::warn_of;
