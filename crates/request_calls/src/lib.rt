//! The requests of a session, and what carries them out: one call each, whose answer stands in a
//! relation to what was before and what is left. A core is one that carries them out.
#![tactic(auto)]

mod carrying;
mod cores;
mod pages;
mod replying;
mod requests;

pub use carrying::{Outcome, carry_out};
pub use control_file::Control;
pub use lpd_values::{FileName, Octets, Refusal};
pub use page_pool::{FilledPage, PageTicket};
pub use pages::{first, keep, spend};
pub use receiver::{Need, Receiver};
pub use replying::reply;
pub use requests::Requests;
pub use spool_calls::{Asked, Receipt, ReturnedControl, ReturnedPage, ReturnedTicket};
pub use spool_requests::Answer;
