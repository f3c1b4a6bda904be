//! What each call of a spool's core answers, and what the core keeps of the history of its calls.
#![tactic(auto)]

mod answers;
mod handed;
mod printer;

pub use account::{Progress, Sheet};
pub use answers::{Asked, Foreign, Next, Receipt, ReturnedControl, ReturnedPage, ReturnedTicket};
pub use handed::{HandedPage, outline_of};
pub use printer::Printer;
