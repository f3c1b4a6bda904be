//! Texts of rows: words, numbers, octets and refusals.
//!
//! In the octets of a row `\n`, `\r`, `\t` and `\x7f` are escapes, and `ab and 3 times c` is `abccc`.

use lpd_commands::Refusal;
use lpd_values::{Octets, Words};
use std::alloc::{AllocError, Global};

/// What a row asks and, after ` => `, what it wants answered.
pub fn sides(row: &str) -> (&str, &str) {
    row.split_once(" => ").unwrap_or((row, ""))
}

/// The first word, and what follows it.
pub fn word(text: &str) -> (&str, &str) {
    text.split_once(' ').unwrap_or((text, ""))
}

/// The second word, which is the value behind its name, and what follows it.
pub fn value(text: &str) -> (&str, &str) {
    word(word(text).1)
}

/// The number that a word spells, or 0.
pub fn number(word: &str) -> u64 {
    word.parse::<u64>().unwrap_or(0)
}

/// The number of 32 bits that a word spells, or 0.
pub fn short_number(word: &str) -> u32 {
    word.parse::<u32>().unwrap_or(0)
}

/// How much of an escape was read.
#[derive(Clone, Copy)]
enum Escape {
    Nothing,
    Backslash,
    X,
    High(u8),
}

fn digit(octet: u8) -> u8 {
    match octet {
        b'0'..=b'9' => octet - b'0',
        b'a'..=b'f' => octet - b'a' + 10,
        _ => 0,
    }
}

/// Reads one more octet of text, which may complete an octet that is meant.
fn read(escape: Escape, octet: u8) -> (Escape, Option<u8>) {
    let whole = match (escape, octet) {
        (Escape::Nothing, b'\\') => return (Escape::Backslash, None),
        (Escape::Backslash, b'x') => return (Escape::X, None),
        (Escape::X, _) => return (Escape::High(digit(octet)), None),
        (Escape::High(high), _) => high << 4 | digit(octet),
        (Escape::Backslash, b'n') => b'\n',
        (Escape::Backslash, b'r') => b'\r',
        (Escape::Backslash, b't') => b'\t',
        _ => octet,
    };
    (Escape::Nothing, Some(whole))
}

/// The octets of one side of a row.
pub fn octets(alloc: Global, side: &str) -> Result<Vec<u8>, AllocError> {
    let mut octets = Vec::new(alloc);
    for part in side.split(" and ") {
        let (times, text) = part.split_once(" times ").unwrap_or(("1", part));
        for _ in 0..number(times) {
            let mut escape = Escape::Nothing;
            for &octet in text.as_bytes() {
                let (next, whole) = read(escape, octet);
                escape = next;
                if let Some(octet) = whole {
                    octets.push(octet)?;
                }
            }
        }
    }
    Ok(octets)
}

/// Appends octets as escapes, or a refusal as rows write it: those of what is read have two digits.
pub fn push_read(told: &mut String, read: Result<Octets, Refusal>) -> Result<(), AllocError> {
    match read {
        Ok(octets) => write!(told, "{}", octets.as_slice().escape_ascii()),
        Err(refusal) => write!(told, "refused {:02}", refusal.number()),
    }
}

/// The words of a list.
pub fn words(alloc: Global, text: &str) -> Result<Words, AllocError> {
    let mut list = Words::new(alloc);
    for word in text.split_whitespace() {
        list.push(Octets::copy_of(alloc, word.as_bytes())?)?;
    }
    Ok(list)
}

/// Appends names with their numbers, with a space between two.
pub fn push_numbers(text: &mut String, numbers: &[(&str, u64)]) -> Result<(), AllocError> {
    let mut before = "";
    for (name, number) in numbers {
        write!(text, "{before}{name} {number}")?;
        before = " ";
    }
    Ok(())
}
