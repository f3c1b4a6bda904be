//! How a server's printers and jobs stand at one moment: read from a snapshot of its spool, and from what its edge notes beside that.
#![tactic(auto)]

mod job;
mod noted;
mod numbers;
mod printer;
mod stage;
mod turns;
mod words;

pub use job::{JobStanding, job_standing};
pub use noted::{EdgeNotes, PrinterNotes, SeenTrouble, is_held};
pub use numbers::{JobName, JobNumber, JobNumbers};
pub use printer::{
    PrinterStanding, cause_of, is_put_off_at, is_served, is_stopped_at, is_unreached_at,
    printer_standing, reached_printers, stopped_printers, unreached_printers,
};
pub use stage::{JobStage, goes_on, is_awaited, jobs_at, jobs_of_queue_at, stage_of};
pub use turns::{FinishingTurn, kept_for, pages_of, turns_of};
