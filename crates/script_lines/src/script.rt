//! What a line of a script asks for.
//!
//! Numbers may have leading zeros (1 to 9 digits in all); number 0 names nothing. An empty word, a carriage return or words too many are bad; a
//! line of spaces is not empty; `#` counts at the first octet alone.

ghost use Rattle.std.specs.Prelude.{◌≡◌, ◌↔◌, ◌++◌, IsTrue, MatchOption, MatchResult, codes};
ghost use Rattle.script_lines.specs.Grammar.{is_host_octet, IsHost, IsNumber, IsNoNumber};
ghost use Rattle.script_lines.specs.Grammar.{IsHex, RefusesHex, HasNoSpace, IsAtSpace};
ghost use Rattle.script_lines.specs.Grammar.{Lacks, HasOperand, IsOther, Means, AnswersLine};
ghost use Rattle.script_lines.specs.Laws.{HasOneMeaning};
ghost use Rattle.std.specs.List.{list_all};
ghost use Rattle.hex.specs.Hex.{is_hex_digit};

use lpd_values::Octets;
use std::alloc::Global;

/// What a line of a script asks for. Sessions and printers have their numbers from 1.
#[derive(Drop)]
pub enum ScriptLine {
    /// An empty line, or a comment.
    Nothing,
    /// A host of this name connects.
    Connect { host: Octets },
    /// Octets arrive for a session, which then goes on as far as it can.
    Send { session: u32, octets: Octets },
    /// A session goes on as far as it can.
    Go { session: u32 },
    /// A session's connection breaks.
    Break { session: u32 },
    /// A printer asks for its next page.
    Next { printer: u32 },
    /// A printer has printed its page.
    Printed { printer: u32 },
    /// A printer failed on its page.
    Failed { printer: u32 },
    /// How many pages are free.
    Free,
    /// Where the pages of the pool are.
    Pages,
    /// The spool is closed.
    Shutdown,
}

/// Why a line wasn't read.
#[derive(Clone, Copy)]
pub enum LineFault {
    /// It is no line of a script.
    Bad,
    /// Memory was refused.
    Memory,
}

/// A line has one meaning at most.
pub fn line_has_one_meaning(_line: &[u8])
    ensures { HasOneMeaning _line.now }
{}

/// Reads one line, without its LF. A word and what follows it are separated by one space.
///
/// # Errors
///
/// `Bad` exactly where the line means nothing; `Memory` only where a host connects or octets are
/// sent.
pub fn parse_line(alloc: Global, line: &[u8]) -> Result<ScriptLine, LineFault>
    ensures { AnswersLine line.now result }
{
    if let Some(meaning) = parse_alone(line) {
        return Ok(meaning);
    }
    if let Some(host) = after(line, b"connect ") {
        return parse_connect(alloc, host);
    }
    if let Some(operands) = after(line, b"send ") {
        return parse_send(alloc, operands);
    }
    parse_numbered(line)
}

/// Reads a line that is empty, a comment or a word alone.
fn parse_alone(line: &[u8]) -> Option<ScriptLine>
    ensures { MatchOption result (HasOperand line.now) (Means line.now) }
{
    match line {
        [] | [b'#', ..] => Some(ScriptLine::Nothing),
        b"free" => Some(ScriptLine::Free),
        b"pages" => Some(ScriptLine::Pages),
        b"shutdown" => Some(ScriptLine::Shutdown),
        _ => None,
    }
}

/// What follows a word at the head of a line.
fn after<'a>(line: &'a [u8], word: &[u8]) -> Option<&'a [u8]>
    ensures { MatchOption result (Lacks word.now line.now)
        (λ rest. line.now ≡ word.now ++ rest.now) }
{
    line.strip_prefix(word)
}

/// Reads a line of a word and the number of a session or a printer.
fn parse_numbered(line: &[u8]) -> Result<ScriptLine, LineFault>
    requires { IsOther line.now }
    ensures { AnswersLine line.now result }
{
    if let Some(digits) = after(line, b"go ") {
        let session = number(digits)?;
        return Ok(ScriptLine::Go { session });
    }
    if let Some(digits) = after(line, b"break ") {
        let session = number(digits)?;
        return Ok(ScriptLine::Break { session });
    }
    if let Some(digits) = after(line, b"next ") {
        let printer = number(digits)?;
        return Ok(ScriptLine::Next { printer });
    }
    if let Some(digits) = after(line, b"printed ") {
        let printer = number(digits)?;
        return Ok(ScriptLine::Printed { printer });
    }
    if let Some(digits) = after(line, b"failed ") {
        let printer = number(digits)?;
        return Ok(ScriptLine::Failed { printer });
    }
    Err(LineFault::Bad)
}

/// Reads the name of a host that connects.
fn parse_connect(alloc: Global, host: &[u8]) -> Result<ScriptLine, LineFault>
    ensures { AnswersLine (codes "connect " ++ host.now) result }
{
    if !is_host(host) {
        return Err(LineFault::Bad);
    }
    let host = Octets::copy_of(alloc, host).or(Err(LineFault::Memory))?;
    Ok(ScriptLine::Connect { host })
}

/// Whether a word may name a host: 1 to 64 octets, each from 21 to 7E in hexadecimal.
fn is_host(name: &[u8]) -> bool
    ensures { IsTrue result ↔ IsHost name.now }
{
    !name.is_empty() && name.len() <= 64 && are_host_octets(name)
}

/// Whether a host's name may have these octets.
fn are_host_octets(octets: &[u8]) -> bool
    ensures { result ≡ list_all is_host_octet octets.now }
{
    octets.iter().all(|octet| is_host_octet(*octet))
}

/// Whether a host's name may have the octet.
fn is_host_octet(octet: u8) -> bool
    ensures { result ≡ is_host_octet octet }
{
    33 <= octet && octet <= 126
}

/// A decimal number of 1 to 9 digits. 0 names nothing.
fn number(digits: &[u8]) -> Result<u32, LineFault>
    ensures { MatchResult result (IsNumber digits.now) (IsNoNumber digits.now) }
{
    if digits.is_empty() || digits.len() > 9 {
        return Err(LineFault::Bad);
    }
    let mut number = 0;
    for digit in digits {
        if *digit < b'0' || b'9' < *digit {
            return Err(LineFault::Bad);
        }
        number = 10 * number + u32::from(*digit - b'0');
    }
    if number == 0 {
        Err(LineFault::Bad)
    } else {
        Ok(number)
    }
}

/// What stands before the first space, and what stands after it.
fn at_space(text: &[u8]) -> Option<(&[u8], &[u8])>
    ensures { MatchOption result (HasNoSpace text.now)
        (λ parts. IsAtSpace text.now parts.0.now parts.1.now) }
{
    for (i, octet) in text.iter().enumerate() {
        if *octet == b' ' {
            return Some((&text[..i], &text[i + 1..]));
        }
    }
    None
}

/// Reads a session's number, a space and octets.
fn parse_send(alloc: Global, operands: &[u8]) -> Result<ScriptLine, LineFault>
    ensures { AnswersLine (codes "send " ++ operands.now) result }
{
    let Some((session, digits)) = at_space(operands) else {
        return Err(LineFault::Bad);
    };
    let session = number(session)?;
    let octets = Octets::from_vec(octets_of(alloc, digits)?);
    Ok(ScriptLine::Send { session, octets })
}

/// The octets of an even number of hexadecimal digits, two or more.
fn octets_of(alloc: Global, digits: &[u8]) -> Result<Vec<u8>, LineFault>
    ensures { MatchResult result (λ octets. IsHex digits.now octets.items) (RefusesHex digits.now) }
{
    if digits.is_empty() || digits.len() % 2 != 0 || !are_hexadecimal(digits) {
        return Err(LineFault::Bad);
    }
    match hex::decode(alloc, digits) {
        Ok(octets) => Ok(octets),
        Err(_) => Err(LineFault::Memory),
    }
}

/// Whether all octets are hexadecimal digits, of either case.
fn are_hexadecimal(digits: &[u8]) -> bool
    ensures { result ≡ list_all is_hex_digit digits.now }
{
    digits.iter().all(|digit| is_hexadecimal(*digit))
}

/// Whether an octet is a hexadecimal digit, of either case.
fn is_hexadecimal(digit: u8) -> bool
    ensures { result ≡ is_hex_digit digit }
{
    digit.is_ascii_hexdigit()
}
