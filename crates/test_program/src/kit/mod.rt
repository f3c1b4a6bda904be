//! What tests of the program's words share.

mod expected;
mod program;

pub use expected::expect;
pub use program::{CONFIG, listen, path_of, told, words_of};
