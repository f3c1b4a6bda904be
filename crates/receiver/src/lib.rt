//! A machine that reads a print session's octets in any pieces (RFC 1179, sections 5 and 6).
//!
//! What it asks and writes is the session reading of `specs/Reading.antt`, however the octets were cut.
#![tactic(auto)]

mod machine;
mod need;
mod receiver;
mod theorems;

pub use control_file::Control;
pub use lpd_values::{FileName, Octets, Refusal, Words};
pub use need::{Answer, Need};
pub use page_pool::{FilledPage, PageTicket};
pub use receiver::Receiver;
pub use theorems::{
    abort_block, control_block, data_block, first_line, later_again, leads, one_reading,
    short_reading, some_reading,
};
