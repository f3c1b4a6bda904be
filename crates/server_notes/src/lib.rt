//! What a server notes beside its spool, each under a lock of its own: how far its end has come, what becomes of each job, which printers
//! stand still, which ones aren't reached, when queues are started again, also at once, and rotations that aren't printed yet.
#![tactic(auto)]

mod delays;
mod doubts;
mod ending;
mod job_book;
mod job_lines;
mod moments;
mod offers;
mod put_offs;
mod restarts;
mod rotations;
mod standstills;
mod withdrawals;

pub use delays::{Delay, DelayCause, Delays};
pub use doubts::Doubts;
pub use ending::ServerEnding;
pub use job_book::JobBook;
pub use job_lines::{JOB_LINES, JobOutcome};
pub use moments::{milliseconds, milliseconds_between, milliseconds_since};
pub use offers::{HeldOffers, Offers};
pub use put_offs::{PutOffs, pause_before_try};
pub use restarts::{Failures, Restarts};
pub use rotations::{Rotation, Rotations};
pub use standstills::{Standstill, Standstills};
pub use withdrawals::Withdrawals;
