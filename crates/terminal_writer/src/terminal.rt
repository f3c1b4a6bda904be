//! What strangers sent is shown at a terminal without what moves its cursor, renames its window or types for its user.
//!
//! An octet that is no part of a visible character is shown by its digits, as everywhere else (`control_lines::Escaped`): the controls of
//! ASCII but LF, those of ISO 8859, by which some terminals go too, and what isn't UTF-8. A character may come in two writes: what may
//! still become one is held back.

ghost use Rattle.std.specs.Prelude.{◌≡◌, ◌≤◌, ◌++◌, IfOk, OnOk, None, [], ◌∷◌, drop, true};
ghost use Rattle.control_lines.specs.Escapes.{escaped};
ghost use Rattle.lpd_commands.specs.Ends.{Writes};
ghost use Rattle.terminal_writer.specs.Terminal.{behind_second, front_behind, front_of, is_cut, is_lead, is_plain, is_trail, may_begin};
ghost use Rattle.terminal_writer.specs.Terminal.{ShowsUpTo, WritesShown, digits_of};

use control_lines::Escaped;
use lpd_commands::{OctetFault, OctetWrite, write_all};
use std::alloc::{AllocError, Global};

/// What stands at the front of octets.
#[derive(Clone, Copy, Debug, PartialEq, Eq)]
enum Front {
    /// A visible character of so many octets.
    Visible(usize),
    /// An octet that is no part of one.
    Hidden,
    /// Nothing, or the beginning of a visible character: what comes behind tells.
    Cut,
}

/// An octet of ASCII that is no control, or a line feed.
fn is_plain(octet: u8) -> bool
    ensures { result ≡ is_plain octet }
{
    octet == b'\n' || (32 <= octet && octet <= 126)
}

/// An octet behind the second one of a character in UTF-8.
fn is_trail(octet: u8) -> bool
    ensures { result ≡ is_trail octet }
{
    128 <= octet && octet <= 191
}

/// Whether a visible character of several octets may begin with this one.
fn is_lead(octet: u8) -> bool
    ensures { result ≡ is_lead octet }
{
    194 <= octet && octet <= 244
}

/// Whether a visible character may begin with these two octets (Unicode, table 3-7, but for the controls behind C2).
fn may_begin(first: u8, second: u8) -> bool
    ensures { result ≡ may_begin first second }
{
    let least = match first {
        194 | 224 => 160,
        240 => 144,
        _ => 128,
    };
    let most = match first {
        237 => 159,
        244 => 143,
        _ => 191,
    };
    is_lead(first) && least <= second && second <= most
}

/// How many octets stand behind the second one of a character that begins with this octet.
fn behind_second(first: u8) -> usize
    ensures value { result ≡ behind_second first }
    ensures most { result ≤ 2 }
{
    if first <= 223 {
        0
    } else if first <= 239 {
        1
    } else {
        2
    }
}

/// What stands before octets by two that may begin a character of which so many octets, 2 at most, stand behind these.
fn front_behind(count: usize, octets: &[u8]) -> Front
    requires { count ≤ 2 }
    ensures { result ≡ front_behind count octets.now }
{
    match (count, octets) {
        (0, _) => Front::Visible(2),
        (_, []) => Front::Cut,
        (_, [third, ..]) if !is_trail(*third) => Front::Hidden,
        (1, _) => Front::Visible(3),
        (_, [_]) => Front::Cut,
        (_, [_, fourth, ..]) if is_trail(*fourth) => Front::Visible(4),
        _ => Front::Hidden,
    }
}

/// What stands at the front of octets.
fn front_of(octets: &[u8]) -> Front
    ensures { result ≡ front_of octets.now }
{
    match octets {
        [] => Front::Cut,
        [first, ..] if is_plain(*first) => Front::Visible(1),
        [first] if is_lead(*first) => Front::Cut,
        [first, second, ..] if may_begin(*first, *second) => {
            front_behind(behind_second(*first), &octets[2..])
        }
        _ => Front::Hidden,
    }
}

/// Puts an octet that is hidden behind a text, by its digits.
fn put_hidden(shown: &mut Vec<u8>, alloc: Global, octet: u8) -> Result<(), AllocError>
    ensures { OnOk result (shown.new.items ≡ shown.old.items ++ escaped (octet ∷ [])) }
{
    let escape = format!(in alloc; "{}", Escaped(&[octet]))?;
    shown.extend_from_slice(escape.as_bytes())
}

/// What is shown of a text.
#[derive(Debug, Drop)]
struct ShownFront {
    /// What is shown of its front.
    shown: Vec<u8>,
    /// The rest, of which what comes behind it tells what is shown.
    rest: Vec<u8>,
}

/// What a terminal is shown of a text, but for a character at its end that isn't whole. AllocError where memory is refused.
fn shown_front(alloc: Global, text: &[u8]) -> Result<ShownFront, AllocError>
    ensures { IfOk result (λ it. ShowsUpTo text.now it.shown.items it.rest.items) }
{
    let mut shown = Vec::new(alloc);
    let mut at = 0;
    while at < text.len() {
        match front_of(&text[at..]) {
            Front::Visible(count) => {
                shown.extend_from_slice(&text[at..at + count])?;
                at += count;
            }
            Front::Hidden => {
                put_hidden(&mut shown, alloc, text[at])?;
                at += 1;
            }
            Front::Cut => break,
        }
    }
    let rest = Vec::from_slice(alloc, &text[at..])?;
    Ok(ShownFront { shown, rest })
}

/// Octets and others behind them. AllocError where memory is refused.
fn joined(alloc: Global, octets: &[u8], others: &[u8]) -> Result<Vec<u8>, AllocError>
    ensures { IfOk result (λ all. all.items ≡ octets.now ++ others.now) }
{
    let mut all = Vec::from_slice(alloc, octets)?;
    all.extend_from_slice(others)?;
    Ok(all)
}

/// A writer to a terminal, or to what is none, of what strangers sent: at a terminal each octet that is no part of a visible character is
/// written by its digits, and elsewhere all are written as they are.
#[derive(Drop)]
pub struct TerminalWriter<W: OctetWrite + Drop> {
    alloc: Global,
    is_terminal: bool,
    writer: W,
    /// The beginning of a character, whose end may come.
    held: Vec<u8>,
    faults: u64,
    ghost cut: { is_cut held.items ≡ true },
}

impl<W: OctetWrite + Drop> TerminalWriter<W> {
    /// A writer by this one, which hasn't failed; and whether that leads to a terminal.
    pub fn new(alloc: Global, writer: W, is_terminal: bool) -> TerminalWriter<W>
        ensures writer { result.writer ≡ writer }
        ensures held { result.held.items ≡ [] }
        ensures faults { result.faults ≡ 0 }
    {
        TerminalWriter {
            alloc,
            is_terminal,
            writer,
            held: Vec::new(alloc),
            faults: 0,
        }
    }

    /// Writes what a terminal is shown of octets, behind those that are held. Fails where it can't be written, or memory is refused.
    fn show(&mut self, octets: &[u8]) -> Result<(), OctetFault>
        ensures shown { OnOk result
            (WritesShown (W.written self.old.writer) (W.written self.new.writer)
            (self.old.held.items ++ octets.now) self.new.held.items) }
        ensures faults { self.new.faults ≡ self.old.faults }
    {
        let Ok(text) = joined(self.alloc, self.held.as_slice(), octets) else {
            return Err(OctetFault);
        };
        let Ok(ShownFront { shown, rest }) = shown_front(self.alloc, text.as_slice()) else {
            return Err(OctetFault);
        };
        write_all(&mut self.writer, shown.as_slice())?;
        self.held = rest;
        Ok(())
    }

    /// Writes what is held by its digits, since nothing comes behind it. Fails where it can't be written, or memory is refused.
    pub fn finish(&mut self) -> Result<(), OctetFault>
        ensures { OnOk result (Writes (W.written self.old.writer) (W.written self.new.writer)
            (digits_of self.old.held.items)) }
    {
        let mut digits = Vec::new(self.alloc);
        for octet in self.held.as_slice() {
            if put_hidden(&mut digits, self.alloc, *octet).is_err() {
                return Err(OctetFault);
            }
        }
        self.held.clear();
        write_all(&mut self.writer, digits.as_slice())
    }
}

impl<W: OctetWrite + Drop> OctetWrite for TerminalWriter<W> {
    ghost written = { λ _. None };

    ghost faults = { λ it. it.faults };

    fn write(&mut self, octets: &[u8]) -> Result<usize, OctetFault> {
        if self.is_terminal {
            if self.show(octets).is_ok() {
                return Ok(octets.len());
            }
        } else if let Ok(count) = self.writer.write(octets) {
            return Ok(count);
        }
        self.faults = self.faults.saturating_add(1);
        Err(OctetFault)
    }
}
