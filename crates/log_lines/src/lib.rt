//! Lines of the log: what stands before each, those that one peer repeats, and a queue from which one thread writes them, so that
//! no other waits for whoever reads them.
#![tactic(auto)]

mod head;
mod logger;
mod queue;
mod repeats;

pub use logger::LineLog;
pub use program_edge::LogForm;
pub use queue::LineQueue;
