//! Who is served by a server: connections come to its porter, who hands them on to threads that serve them.
#![tactic(auto)]

mod answering;
mod listening;

pub use answering::Answering;
pub use listening::{Gate, Porter, announce_all, listen};
