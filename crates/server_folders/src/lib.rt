//! The folders of a server, as its threads share them: that in which jobs are kept until they are printed, and that in which the account's
//! segments become files.
#![tactic(auto)]

mod archive;
mod holds;
mod kept;
mod owner;
mod recounting;
mod refusal;
mod resending;
mod told;
mod told_places;
mod waiting;

pub use archive::{ACCOUNT_LINES, Archive, LAST_TRIES, open_archive};
pub use job_disk::{AdmissionFault, DiskFault, FedFolder, FileRemoval, HeldLines, StoredJobs};
pub use kept::{JobFolder, aftermath};
pub use owner::{FiledJob, Owner, OwnerFault};
pub use refusal::FOLDER_CAUSES;
pub use resending::Unsent;
