//! The edge of a program: its standard descriptors, streams as ends of octets, how faults are told,
//! and how a server is to run.
#![tactic(auto)]

mod descriptors;
mod leaving;
mod names;
mod networks;
mod numerals;
mod opening;
mod places;
mod settings;
mod status;
mod streams;
mod telling;

pub use descriptors::{descriptor_limit, fill_standard_descriptors};
pub use leaving::pass_over;
pub use names::{DefaultFile, JOB_FILE, JobFileName};
pub use networks::Network;
pub use opening::{FailedOpening, StartFault, StartPart};
pub use places::{PlacedPrinter, PrinterPlace};
pub use settings::{
    LEAVE_SECONDS, Limits, LogForm, MOST_CONTROL_PATH, MOST_SESSIONS, NO_JOB_SECONDS,
    PrinterLimits, ROOM_MS, Settings,
};
pub use status::{StatusPlace, is_host_name};
pub use streams::{StreamReader, StreamWriter};
pub use telling::{CAUSES, FaultName, tell, tell_cause};
