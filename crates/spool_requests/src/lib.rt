//! The answer to one request of a session: which one is due after a history, and which event of the history it shows.
//!
//! The definitions stand in `specs/`; the functions here have empty bodies, and their contracts are laws of them.
#![tactic(auto)]

mod agree;
mod answer;
mod decided;
mod follows;

pub use agree::answers_agree;
pub use answer::{Answer, RequestKind};
pub use decided::{abort_is_decided, puts_are_decided, start_is_decided};
pub use follows::{jobs_follow, queues_follow, session_end_follows};
