//! How jobs come into a server's spool that wait in its folder: the feeder.
#![tactic(auto)]

mod feeding;

pub use feeding::Feeding;
