//! A folder of kept jobs as a start finds it: which jobs it has, where new numbers go on, and whose each job is.
#![tactic(auto)]

mod heading;
mod recovering;
mod store;

pub use heading::read_sender;
pub use job_heads::HeadFault;
pub use kept_jobs::KeepError;
pub use lpd_commands::{OctetFault, OctetRead};
pub use recovering::{FoundJobs, recover};
pub use store::{Names, Store};
