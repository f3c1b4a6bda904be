//! A plain, slow reader of histories: it computes what a list of entries says, by the definitions and nothing else, so
//! that tests can hold them against worked histories and faster code can be compared with it. Here it reads where a
//! history leaves a spool, and the texts that answer a question for a queue's state and a removal there; which histories may
//! be is read by a crate above.
#![tactic(auto)]

mod hands;
mod jobs;
mod printers;
mod received;
mod rotations;
mod said;
mod state;
mod states;
mod texts;
mod told;

pub use hands::{next_page, printer_numbered};
pub use jobs::job_in;
pub use received::{all_begun, is_begun, is_open_in};
pub use rotations::rotated;
pub use said::openings;
pub use state::{File, Job, Next, Opening, Page, Printer, State};
pub use states::now;
pub use texts::{removal_text, state_text};
