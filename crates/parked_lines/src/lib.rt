//! Which way a job goes that is kept, and in which order the jobs that wait in the folder are fed to the spool.
#![tactic(auto)]

mod job;
mod line;
mod lines;
mod parts;
mod state;

pub use job::{JobSize, NewJob, ParkedJob, pages_in};
pub use lines::{AdmissionFault, ParkedLines};
pub use parts::{FreePart, PartUse, QueuePart, SpoolShape};
pub use state::{JobMove, ParkState};
