//! What printers print to.

ghost use Rattle.std.specs.List.{after_first, before_first, position_or_len};
ghost use Rattle.std.specs.Prelude.{◌≡◌, ◌<◌, ◌++◌, ℕ, IfNone, IfSome, List, MatchOption, length};
ghost use Rattle.std.specs.Net.Grammar.{IsSocketV4Text};
ghost use Rattle.std.specs.Net.Socket.{v4_port};
ghost use Rattle.std.specs.declared.net.socket_addr.SocketAddrV4.{SocketAddrV4};
ghost use Rattle.program_edge.specs.Places.{IsPlaceText, IsPrinterText, IsSocketText, is_equals_sign};
ghost use Rattle.program_edge.specs.declared.places.PrinterPlace.{PrinterPlace};

use crate::numerals::plain_number;
use std::fmt;
use std::net::{Ipv4Addr, SocketAddrV4};

/// The port of a printer on the network where none is given.
const RAW_PORT: u16 = 9_100;

/// What a printer prints to.
#[derive(Clone, Copy, Debug, PartialEq, Eq)]
pub enum PrinterPlace<'a> {
    /// A file, a device or a pipe at this path.
    File(&'a str),
    /// A printer at this address of the network, which takes octets as they are.
    Socket(SocketAddrV4),
    /// A folder at this path, where each job becomes a file.
    Folder(&'a str),
}

impl fmt::Display for PrinterPlace<'_> {
    ghost use Rattle.std.specs.Prelude.{Some};
    ghost use Rattle.program_edge.specs.Places.{place_text};

    ghost output = { λ place. Some (place_text place) };

    fn fmt<W: fmt::Write>(&self, f: &mut fmt::Formatter<W>) -> fmt::Result {
        match self {
            PrinterPlace::File(path) => write!(f, "file:{path}"),
            PrinterPlace::Socket(address) => write!(f, "socket://{address}"),
            PrinterPlace::Folder(path) => write!(f, "folder:{path}"),
        }
    }
}

/// What the printer of a number prints to.
#[derive(Clone, Copy, Debug, PartialEq, Eq)]
pub struct PlacedPrinter<'a> {
    /// The printer's number, from 1.
    pub printer: u32,
    /// What it prints to.
    pub place: PrinterPlace<'a>,
}

impl fmt::Display for PlacedPrinter<'_> {
    ghost use Rattle.std.specs.Prelude.{Some};
    ghost use Rattle.program_edge.specs.Places.{printer_text};

    ghost output = { λ said. Some (printer_text said) };

    fn fmt<W: fmt::Write>(&self, f: &mut fmt::Formatter<W>) -> fmt::Result {
        let PlacedPrinter { printer, place } = self;
        write!(f, "{printer}={place}")
    }
}

/// What follows a word at the head of a text.
fn after<'a>(text: &'a str, word: &str) -> Option<&'a str>
    ensures { MatchOption result ((rest : List ℕ) → text.now ≡ word.now ++ rest → ⊥)
        (λ rest. text.now ≡ word.now ++ rest.now) }
{
    text.strip_prefix(word)
}

/// The path that follows a word at the head of a text. None where there is no such word, or nothing
/// behind it.
fn path_after<'a>(text: &'a str, word: &str) -> Option<&'a str>
    ensures path { IfSome result (λ path. (text.now ≡ word.now ++ path.now)
        × (0 < length path.now)) }
    ensures none { IfNone result ((path : List ℕ) → text.now ≡ word.now ++ path → 0 < length path
        → ⊥) }
{
    let path = after(text, word)?;
    if path.is_empty() {
        return None;
    }
    Some(path)
}

/// The address and the port that a text names, with a colon between. None where it names none, and at the port 0.
pub(crate) fn socket_of(text: &str) -> Option<SocketAddrV4>
    ensures socket { IfSome result (λ socket. IsSocketV4Text text.now socket
        × (0 < v4_port socket)) }
    ensures none { IfNone result ((socket : SocketAddrV4) → IsSocketV4Text text.now socket
        → 0 < v4_port socket → ⊥) }
{
    let Ok(socket) = text.parse::<SocketAddrV4>() else {
        return None;
    };
    if socket.port() == 0 {
        return None;
    }
    Some(socket)
}

/// The address that a text writes: an IPv4 address, for the port 9100, or one with another port.
/// None where it writes none, and at the port 0.
fn address_of(text: &str) -> Option<SocketAddrV4>
    ensures address { IfSome result (IsSocketText text.now) }
    ensures none { IfNone result ((address : SocketAddrV4) → IsSocketText text.now address → ⊥) }
{
    if let Ok(address) = text.parse::<Ipv4Addr>() {
        return Some(SocketAddrV4::new(address, RAW_PORT));
    }
    socket_of(text)
}

impl<'a> PrinterPlace<'a> {
    /// The place that a text writes: `file:PATH`, `folder:PATH` or `socket://A.B.C.D[:PORT]`. None where it writes none.
    pub fn read(text: &'a str) -> Option<PrinterPlace<'a>>
        ensures place { IfSome result (IsPlaceText text.now) }
        ensures none { IfNone result ((place : PrinterPlace) → IsPlaceText text.now place → ⊥) }
    {
        if let Some(path) = path_after(text, "file:") {
            return Some(PrinterPlace::File(path));
        }
        if let Some(path) = path_after(text, "folder:") {
            return Some(PrinterPlace::Folder(path));
        }
        let host = after(text, "socket://")?;
        let address = address_of(host)?;
        Some(PrinterPlace::Socket(address))
    }
}

/// What stands before the first equals sign, and what stands behind it, if there is one.
fn parts_of(text: &str) -> Option<(&str, &str)>
    ensures { MatchOption result (position_or_len is_equals_sign text.now ≡ length text.now)
        (λ parts. (parts.0.now ≡ before_first is_equals_sign text.now)
        × (parts.1.now ≡ after_first is_equals_sign text.now)
        × (position_or_len is_equals_sign text.now < length text.now)) }
{
    text.split_once('=')
}

impl<'a> PlacedPrinter<'a> {
    ghost use Rattle.program_edge.specs.declared.places.PlacedPrinter.{PlacedPrinter};

    /// What a text says of a printer: its number, from 1, an equals sign, and `file:PATH`,
    /// `socket://A.B.C.D[:PORT]` or `folder:PATH`. None where it says nothing of one.
    pub fn read(text: &'a str) -> Option<PlacedPrinter<'a>>
        ensures place { IfSome result (IsPrinterText text.now) }
        ensures none { IfNone result ((said : PlacedPrinter) → IsPrinterText text.now said → ⊥) }
    {
        let (number, place) = parts_of(text)?;
        let printer = plain_number(number)?;
        if printer == 0 {
            return None;
        }
        let place = PrinterPlace::read(place)?;
        Some(PlacedPrinter { printer, place })
    }
}
