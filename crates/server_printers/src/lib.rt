//! Who has pages printed: a thread for each printer of a server writes the pages that it is handed to what the printer prints to.
#![tactic(auto)]

mod device_sink;
mod printing;

pub use printing::Printing;
