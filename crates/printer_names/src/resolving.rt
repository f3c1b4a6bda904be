//! Which printer of a configuration a name means.

ghost use Rattle.std.specs.Prelude.{◌≡◌, MatchOption};
ghost use Rattle.printer_names.specs.Names.{IsFirst, IsFound, IsNthOf, IsNumbered, IsNumberedOf, Means, NoOne, only_one};

use crate::cutting::cut_at_last;
use crate::named::is_digits;
use config_values::Config;
use decimals::read_decimal;

/// Why a name means no printer.
#[derive(Clone, Copy, Debug, PartialEq, Eq)]
pub enum NameFault {
    /// No printer has this name.
    Unknown,
    /// It may mean two printers: the first one of a queue, or another one of a queue whose name is shorter.
    Ambiguous,
}

/// The nth, from 1, of the printers that serve a queue, by rising numbers.
pub(crate) fn nth_printer(config: &Config, queue: u32, nth: u64) -> Option<u32>
    ensures { IsFound (IsNthOf config.now queue nth) result }
{
    let mut seen = 0u64;
    for before in 0..config.printer_count() {
        let printer = before + 1;
        if config.queue_of(printer) == queue {
            seen += 1;
            if seen == nth {
                return Some(printer);
            }
        }
    }
    None
}

/// The printer of this number, in plain digits.
fn numbered(config: &Config, name: &[u8]) -> Option<u32>
    ensures { MatchOption result (NoOne (IsNumbered config.now name.now))
        (IsNumbered config.now name.now) }
{
    let number = read_decimal(name)?;
    let most = u64::from(config.printer_count());
    if number <= most && config.is_printer(number as u32) {
        return Some(number as u32);
    }
    None
}

/// The first printer of the queue of this name.
fn first(config: &Config, name: &[u8]) -> Option<u32>
    ensures { IsFound (IsFirst config.now name.now) result }
{
    let queue = config.queue_named(name)?;
    nth_printer(config, queue, 1)
}

/// The printer that a queue's name, a point and a number say.
fn numbered_of(config: &Config, name: &[u8]) -> Option<u32>
    ensures { MatchOption result (NoOne (IsNumberedOf config.now name.now))
        (IsNumberedOf config.now name.now) }
{
    let (queue, number) = cut_at_last(name)?;
    let nth = read_decimal(number)?;
    let queue = config.queue_named(queue)?;
    nth_printer(config, queue, nth)
}

/// The one that is there of two.
fn only_one(first: Option<u32>, other: Option<u32>) -> Result<u32, NameFault>
    ensures { result ≡ only_one first other }
{
    match (first, other) {
        (Some(printer), None) | (None, Some(printer)) => Ok(printer),
        (None, None) => Err(NameFault::Unknown),
        (Some(_), Some(_)) => Err(NameFault::Ambiguous),
    }
}

/// The number of the printer that a name means: digits alone are that number; else it is the name of a queue, for its first printer, or that with
/// a point behind it and which of the queue's printers it is, from 1.
///
/// `Unknown` where none has this name; `Ambiguous` where it may be read in both ways.
pub fn printer_named(config: &Config, name: &str) -> Result<u32, NameFault>
    ensures { Means config.now name.now result }
{
    let name = name.as_bytes();
    if is_digits(name) {
        return numbered(config, name).ok_or(NameFault::Unknown);
    }
    only_one(first(config, name), numbered_of(config, name))
}
