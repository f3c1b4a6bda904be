//! Worked traces of a spool of many sessions, against which its definitions are read.
//!
//! The functions have empty bodies, and their contracts are the worked rows, proved by computing the definitions.
#![tactic(auto)]

mod rows;

pub use rows::{
    aborted_job, broken_session, closed_session, copies, failed_page, file_arrived, one_job,
    one_job_is_right, refused_sessions, removed_job, right_replies, two_sessions, waits_for_page,
    wrong_replies,
};
