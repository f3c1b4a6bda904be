//! What is done for the words of the program.
#![tactic(auto)]

mod asking;
mod controlling;
mod fault;
mod files;
mod folders;
mod places;
mod progress;
mod readers;
mod reasons;
mod remarks;
mod running;
mod sockets;

pub use asking::ask_queue;
pub use controlling::{ControlFault, ask_server, control};
pub use fault::{ActionFault, CAUSES};
pub use files::{ReadSpool, check, read_config, read_spool, replay};
pub use places::{PLACE_LINES, printers_of, tell_places};
pub use program_words::ServeRequest;
pub use progress::PROGRESS;
pub use remarks::remark_on;
pub use running::{RunOutcome, System, data_file, run, send, tell_unread};
pub use spool_config::{PlacesFault, ToldPlace};
