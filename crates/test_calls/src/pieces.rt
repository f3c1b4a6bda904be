//! Sessions that are sent in several pieces, from the program's input to its output.
//!
//! A row has how many pages are printed behind the session, and its octets. Wanted are the octets that the session writes, in
//! hexadecimal digits, and after a line's end what is printed then.

use crate::scripts::{CONFIG, run};
use std::alloc::{AllocError, Global};
use test_kit::rows::{number, octets, word};

/// How many octets stand before a cut, at most.
const CUTS: usize = 128;

/// A script that connects, sends these octets, those up to the cut at once and the others so many at a time, and has so many pages
/// printed.
fn script_of(
    alloc: Global,
    octets: &[u8],
    cut: usize,
    step: usize,
    pages: u64,
) -> Result<String, AllocError> {
    let mut script = format!(in alloc; "{CONFIG}%%\nconnect h1\n")?;
    let (first, rest) = octets.split_at(cut.min(octets.len()));
    for piece in first.chunks(cut.max(1)).chain(rest.chunks(step.max(1))) {
        let digits = hex::encode(alloc, piece)?;
        writeln!(&mut script, "send 1 {}", digits.as_str())?;
    }
    for _ in 0..pages {
        script.push_str("next 1\nprinted 1\n")?;
    }
    script.push_str("free\n")?;
    Ok(script)
}

/// Of what the program prints for these octets, cut so, the digits of all that the session writes, and the lines that aren't the
/// session's.
fn answer(
    alloc: Global,
    octets: &[u8],
    cut: usize,
    step: usize,
    pages: u64,
) -> Result<String, AllocError> {
    let told = run(
        alloc,
        script_of(alloc, octets, cut, step, pages)?.as_bytes(),
    )?;
    let mut answer = String::new(alloc);
    let mut others = String::new(alloc);
    for line in str::from_utf8(told.as_slice()).unwrap_or("?").lines() {
        match line.strip_prefix("1: ") {
            Some(rest) => match word(rest).0 {
                "-" | "gone" => {}
                digits => answer.push_str(digits)?,
            },
            None if line.starts_with("session ") => {}
            None => write!(others, "\n{line}")?,
        }
    }
    answer.push_str(others.as_str())?;
    Ok(answer)
}

/// Appends what the program answers and prints for a session, whole, octet by octet and in each cut into two pieces behind one of
/// the first octets, or where that isn't the same.
pub fn pieces(told: &mut String, alloc: Global, asked: &str) -> Result<(), AllocError> {
    let (pages, text) = word(asked);
    let (pages, text) = (number(pages), octets(alloc, text)?);
    let whole = answer(alloc, text.as_slice(), text.len(), 1, pages)?;
    write!(told, "{}", whole.as_bytes().escape_ascii())?;
    for cut in 0..text.len().min(CUTS) {
        let step = if cut == 0 { 1 } else { text.len() };
        let other = answer(alloc, text.as_slice(), cut, step, pages)?;
        if other.as_str() != whole.as_str() {
            write!(told, ", cut at {cut} {}", other.as_bytes().escape_ascii())?;
        }
    }
    Ok(())
}
