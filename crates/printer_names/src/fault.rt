//! Why it can't be said what the printers of a configuration print to.

ghost use Rattle.std.specs.Prelude.{◌≡◌};
ghost use Rattle.printer_names.specs.declared.fault.PlacingFault.TheVariants.{Memory};

use crate::named::NamedPrinter;
use std::alloc::AllocError;
use std::fmt;
use thiserror::Error;

/// Why it can't be said what the printers of a configuration print to.
#[derive(Clone, Copy, Debug, PartialEq, Eq, Error)]
pub enum PlacingFault<'a> {
    /// A text of the configuration says nothing that a printer may print to, or its queue has no such printer.
    OutOfRange,
    /// No printer has the name that this word says.
    Unknown(NamedPrinter<'a>),
    /// The name that this word says may mean two printers.
    Ambiguous(NamedPrinter<'a>),
    /// This word is for a printer that another word, or the configuration, has a place for.
    Twice(NamedPrinter<'a>),
    /// Memory was refused.
    Memory,
}

impl fmt::Display for PlacingFault<'_> {
    ghost use Rattle.std.specs.Prelude.{Some};
    ghost use Rattle.printer_names.specs.Placing.{placing_words};

    ghost output = { λ fault. Some (placing_words fault) };

    fn fmt<W: fmt::Write>(&self, f: &mut fmt::Formatter<W>) -> fmt::Result {
        match self {
            PlacingFault::OutOfRange => f.write_str("fault 53 OutOfRange queue.places"),
            PlacingFault::Unknown(said) => write!(f, "printer {} isn't there: {said}", said.name),
            PlacingFault::Ambiguous(said) => {
                write!(f, "printer {} may be one of two: {said}", said.name)
            }
            PlacingFault::Twice(said) => write!(f, "'{said}' is a second PLACE for its printer"),
            PlacingFault::Memory => f.write_str("fault 12 Memory"),
        }
    }
}

impl From<AllocError> for PlacingFault<'_> {
    ghost from_gives = { λ _ fault. fault ≡ Memory };

    fn from(_error: AllocError) -> Self {
        PlacingFault::Memory
    }
}
