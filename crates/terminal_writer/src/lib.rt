//! A writer by which what strangers sent comes to a terminal without what moves its cursor, renames its window or types for its user.
#![tactic(auto)]

mod terminal;

pub use terminal::TerminalWriter;
