//! Entries of an account as lines of text.
#![tactic(auto)]

mod control;
mod fault;
mod fields;
mod laws;
mod read;
mod values;
mod words;
mod write;

pub use fault::LineFault;
pub use fields::{put_hexed, put_number, put_plain, put_shown};
pub use laws::lines_are_read_back;
pub use read::parse_entry;
pub use values::{digest, hidden, number, short};
pub use words::next_word;
pub use write::write_entry;
