//! What a printer was handed by its account, held against the octets that are read again from what it printed to.
#![tactic(auto)]

mod folder;
mod page;
mod source;
mod trail;

pub use folder::{FolderTrail, judge_job};
pub use page::{Differs, judge, page_matches};
pub use source::{PrintedOctets, TrailFault};
pub use trail::{PrinterTrail, RunBegins};
