//! What a text says of a printer.

ghost use Rattle.std.specs.List.{after_first, before_first, list_all, position_or_len};
ghost use Rattle.std.specs.Prelude.{◌≡◌, ◌<◌, ◌↔◌, ℕ, IfNone, IfSome, IsTrue, List, MatchOption, length};
ghost use Rattle.program_edge.specs.Places.{is_equals_sign};
ghost use Rattle.printer_names.specs.Texts.{IsName, IsNamedText, is_digits};

use decimals::read_decimal;
use lpd_values::is_digit;
use program_edge::PrinterPlace;
use std::fmt;

/// A printer by its name, and what it prints to, as a text says it.
#[derive(Clone, Copy, Debug, PartialEq, Eq)]
pub struct NamedPrinter<'a> {
    /// Its number, from 1; the name of its queue, whose first printer it is; or that, a point and which of the queue's printers it is, from 1.
    pub name: &'a str,
    /// What it prints to.
    pub place: PrinterPlace<'a>,
}

impl fmt::Display for NamedPrinter<'_> {
    ghost use Rattle.std.specs.Prelude.{Some};
    ghost use Rattle.printer_names.specs.Texts.{named_text};

    ghost output = { λ said. Some (named_text said) };

    fn fmt<W: fmt::Write>(&self, f: &mut fmt::Formatter<W>) -> fmt::Result {
        let NamedPrinter { name, place } = self;
        write!(f, "{name}={place}")
    }
}

/// Whether all octets are digits.
pub(crate) fn is_digits(octets: &[u8]) -> bool
    ensures { result ≡ is_digits octets.now }
{
    octets.iter().all(|octet| is_digit(*octet))
}

/// Whether a name may be a printer's.
fn is_name(name: &str) -> bool
    ensures { IsTrue result ↔ IsName name.now }
{
    if name.is_empty() {
        return false;
    }
    if !is_digits(name.as_bytes()) {
        return true;
    }
    match read_decimal(name.as_bytes()) {
        Some(number) => 1 <= number && number <= u64::from(u32::MAX),
        None => false,
    }
}

/// What stands before the first equals sign, and what stands behind it, if there is one.
fn parts_of(text: &str) -> Option<(&str, &str)>
    ensures { MatchOption result (position_or_len is_equals_sign text.now ≡ length text.now)
        (λ parts. (parts.0.now ≡ before_first is_equals_sign text.now)
        × (parts.1.now ≡ after_first is_equals_sign text.now)
        × (position_or_len is_equals_sign text.now < length text.now)) }
{
    text.split_once('=')
}

impl<'a> NamedPrinter<'a> {
    ghost use Rattle.printer_names.specs.declared.named.NamedPrinter.{NamedPrinter};

    /// What a text says of a printer: its name, an equals sign, and `file:PATH`, `socket://A.B.C.D[:PORT]` or `folder:PATH`. None where it
    /// says nothing of one: digits alone are a number above 0 of at most 32 bits, without a zero in front.
    pub fn read(text: &'a str) -> Option<NamedPrinter<'a>>
        ensures said { IfSome result (IsNamedText text.now) }
        ensures none { IfNone result ((said : NamedPrinter) → IsNamedText text.now said → ⊥) }
    {
        let (name, place) = parts_of(text)?;
        if !is_name(name) {
            return None;
        }
        let place = PrinterPlace::read(place)?;
        Some(NamedPrinter { name, place })
    }
}
