//! Tables of a command line's words, and how `clap` is told of them.
#![tactic(auto)]

mod tables;

pub use tables::{CommandTable, Shape, Word, command_of, plain};
