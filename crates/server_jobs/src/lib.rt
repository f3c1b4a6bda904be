//! What is done with single jobs of a server at its control socket, and the lines of an answer there.
#![tactic(auto)]

mod answer_lines;
mod job_commands;
mod owned_job;

pub use answer_lines::AnswerLines;
pub use job_commands::{JobCommander, is_received};
pub use owned_job::OwnedJob;
