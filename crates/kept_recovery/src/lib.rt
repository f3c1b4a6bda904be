//! Jobs that were kept are fed to a spool again after a start, by rising number: each from its file, as a session of its own sender.
#![tactic(auto)]

mod feeding;

pub use feeding::{Fed, Recovered, feed, feed_one, recover_all};
pub use job_heads::HeadFault;
pub use job_store::{FoundJobs, Store};
pub use kept_jobs::KeepError;
pub use request_session::{Requests, SessionEnd};
