//! Jobs kept in a folder of the operating system: `N.tmp` is a job that comes, `N.job` a whole one, `N.failed` one that failed.
#![tactic(auto)]

mod disk;
mod ended_files;
mod fault;
mod fed;
mod folder;
mod frame;
mod jobs;
mod kept_file;
mod lines;
mod listing;
mod looking;
mod numbers;
mod recount;
mod store;
mod stored;
mod syncs;

pub use disk::{Disk, DiskRoom};
pub use fault::{DiskFault, InFolder};
pub use fed::FedFolder;
pub use folder::DiskFolder;
pub use kept_file::KeptFile;
pub use lines::{FileRemoval, HeldLines, NumberedJob};
pub use looking::{FolderState, HELD_QUEUES, look, read_held};
pub use parked_lines::{AdmissionFault, JobSize};
pub use recount::Recount;
pub use server_folder::{FolderError, FolderUse};
pub use store::DiskStore;
pub use stored::StoredJobs;
