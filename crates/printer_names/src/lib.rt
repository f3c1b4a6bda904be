//! Printers by name: which printer of a configuration a text names, and what each is to print to.
#![tactic(auto)]

mod cutting;
mod fault;
mod named;
mod placing;
mod resolving;

pub use fault::PlacingFault;
pub use named::NamedPrinter;
pub use placing::placed_printers;
pub use resolving::{NameFault, printer_named};
