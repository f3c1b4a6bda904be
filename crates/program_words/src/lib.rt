//! The words of the program: what `clap` reads of them, and what they ask for.
#![tactic(auto)]

mod auditing;
mod checking;
mod command;
mod control_request;
mod envelope;
mod naming;
mod printers;
mod questions;
mod queue_question;
mod serving;
mod values;
mod word_fault;
mod words;

pub use account_usage::{AuditRequest, UsageRequest};
pub use checking::Checking;
pub use control_request::ControlRequest;
pub use envelope::Envelope;
pub use naming::three_digits;
pub use printer_names::NamedPrinter;
pub use program_edge::{Limits, Settings};
pub use queue_question::{QueueQuestion, Server};
pub use serving::ServeRequest;
pub use word_fault::WordFault;
pub use words::{Ask, Sending, Unread, read_words, words_of};
