//! What is noted of each page that a printer of a server is handed: whether it was written, why not, and how its job ends.
#![tactic(auto)]

mod sink;
mod watched;

pub use sink::Explains;
pub use watched::Watched;
