//! The book of held jobs: what is known of each, its pages, and which of them is next.
#![tactic(auto)]

mod book;
mod choice;
mod entry;
mod texts;
mod turn;

pub use book::{Book, MAX_JOBS, MAX_PAGES};
pub use control_file::Control;
pub use held_jobs::{DataFile, Job, Phase};
pub use lpd_values::{FileName, Octets};
pub use page_chain::{ChainError, Place};
pub use page_pool::{FilledPage, Pool};
pub use told_jobs::StateQuery;
