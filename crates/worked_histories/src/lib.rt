//! Worked histories of a spool, against which its definitions are read: what is free after each event, which page a
//! printer gets next, which order finishes, which texts are told, and which events may not come.
//!
//! The functions have empty bodies, and their contracts are the worked rows, proved by computing the definitions.
#![tactic(auto)]

mod rows;

pub use rows::{
    aborted_job, after_rotation, claims_meet, closed_before, closed_spool, failed_page,
    filled_account, joined, one_job, one_job_is_legal, printed_twice, refused, removed_job,
    stopped_before, texts, two_jobs, waiting,
};
