//! Octets of strangers as shown text.

ghost use Rattle.std.specs.Prelude.{◌≡◌, Some};
ghost use Rattle.control_lines.specs.Escapes.{escaped};

use percent_encoding::{AsciiSet, CONTROLS, ascii_set, percent_encode};
use std::fmt;

/// The octets below 80 (hexadecimal) that are not shown as they are: those below 21, 7F and `%`.
pub const HIDDEN: AsciiSet = ascii_set!(CONTROLS.add(b' ').add(b'%'));

/// Octets of strangers as one word of shown text: the octets 21 to 7E (hexadecimal) but `%` stay as they are, and each other one is
/// `%` with two upper-case hexadecimal digits. No octet at all is shown as `-`, and a `-` alone as `%2D`.
#[derive(Clone, Copy, Debug)]
pub struct Escaped<'a>(pub &'a [u8]);

impl fmt::Display for Escaped<'_> {
    ghost output = { λ shown. Some (escaped shown.0.now) };

    fn fmt<W: fmt::Write>(&self, f: &mut fmt::Formatter<W>) -> fmt::Result {
        match self.0 {
            [] => f.write_str("-"),
            b"-" => f.write_str("%2D"),
            octets => write!(f, "{}", percent_encode(octets, HIDDEN)),
        }
    }
}
