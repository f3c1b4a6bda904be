//! What a folder of kept jobs says of its files: which file each accepted job has, how files are named, and which jobs wait in the
//! folder to be fed.
#![tactic(auto)]

mod names;
mod table;
mod waiting;

pub use names::{FileStage, KeptFileName, NUMBERS_END};
pub use table::{JobEnd, JobFiles};
pub use waiting::WaitingJobs;
