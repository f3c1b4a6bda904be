//! The lines as they are read, but for the configuration's. What was read is written again: only where that gives the same line
//! does the line mean it.

ghost use Rattle.std.specs.Prelude.{◌≡◌, ◌⊎◌, [], Some, None, MatchOption, MatchResult};
ghost use Rattle.account.specs.Seen.{base_seen};
ghost use Rattle.account_text.specs.Reading.{words_of};
ghost use Rattle.segment_text.specs.Heads as H;
ghost use Rattle.segment_text.specs.Meant as M;
ghost use Rattle.segment_text.specs.Reading as R;
ghost use Rattle.segment_text.specs.Seen.{begin_seen, last_seen, origin_seen, printer_seen, start_seen};

use crate::head::{Begin, HeadPrinter, Last, Origin, Start, Version};
use crate::stamp::{is_before, stamp};
use crate::write::{write_last, write_origin, write_printer, write_start};
use account::Base;
use account_text::{LineFault, digest, hidden, next_word, number};
use std::alloc::Global;

/// The digest of the segment before, if there is one.
fn previous(text: &[u8]) -> Option<Option<[u8; 32]>>
    ensures { MatchOption result (R.previous_in (words_of text.now) ≡ None)
        (λ p. R.previous_in (words_of text.now) ≡ Some p) }
{
    let (word, rest) = next_word(text)?;
    let Some((digits, rest)) = next_word(rest) else {
        if word == b"first".as_slice() {
            return Some(None);
        }
        return None;
    };
    if next_word(rest).is_some() || word != b"after".as_slice() {
        return None;
    }
    let digest = digest(digits)?;
    Some(Some(digest))
}

/// The version of the text.
fn version(word: &[u8]) -> Option<Version>
    ensures { MatchOption result (R.version_of word.now ≡ None)
        (λ v. R.version_of word.now ≡ Some v) }
{
    if word == b"1".as_slice() {
        Some(Version::One)
    } else if word == b"2".as_slice() {
        Some(Version::Two)
    } else {
        None
    }
}

/// Whether these may be the times of the first and of the last entry, by a version.
fn are_ordered(version: Version, first: &[u8], last: &[u8]) -> bool
    ensures { result ≡ R.are_ordered version first.now last.now }
{
    match version {
        Version::One => true,
        Version::Two => !is_before(last, first),
    }
}

/// Where a segment stands.
fn origin(alloc: Global, text: &[u8]) -> Result<Origin, LineFault>
    ensures { MatchResult result
        (λ o. R.origin_in (words_of text.now) ≡ Some (origin_seen o))
        (λ f. (f ≡ LineFault.Memory)
        ⊎ ((f ≡ LineFault.Bad) × (R.origin_in (words_of text.now) ≡ None))) }
{
    let (word, rest) = next_word(text).ok_or(LineFault::Bad)?;
    let (run, rest) = next_word(rest).ok_or(LineFault::Bad)?;
    let (segment, rest) = next_word(rest).ok_or(LineFault::Bad)?;
    let (first, rest) = next_word(rest).ok_or(LineFault::Bad)?;
    let (last, rest) = next_word(rest).ok_or(LineFault::Bad)?;
    let version = version(word).ok_or(LineFault::Bad)?;
    let run = number(run).ok_or(LineFault::Bad)?;
    let segment = number(segment).ok_or(LineFault::Bad)?;
    let first = stamp(alloc, first)?;
    let last = stamp(alloc, last)?;
    let previous = previous(rest).ok_or(LineFault::Bad)?;
    if !are_ordered(version, first.as_slice(), last.as_slice()) {
        return Err(LineFault::Bad);
    }
    Ok(Origin {
        version,
        run,
        segment,
        first,
        last,
        previous,
    })
}

/// Where what is printed begins, or none where the word is a dash.
fn begins(word: &[u8]) -> Option<Option<u64>>
    ensures { MatchOption result (R.begins_of word.now ≡ None)
        (λ n. R.begins_of word.now ≡ Some n) }
{
    if word == b"-".as_slice() {
        return Some(None);
    }
    let number = number(word)?;
    Some(Some(number))
}

/// What a printer prints to.
fn printer(alloc: Global, text: &[u8]) -> Result<HeadPrinter, LineFault>
    ensures { MatchResult result
        (λ p. R.printer_in (words_of text.now) ≡ Some (printer_seen p))
        (λ f. (f ≡ LineFault.Memory)
        ⊎ ((f ≡ LineFault.Bad) × (R.printer_in (words_of text.now) ≡ None))) }
{
    let (place, rest) = next_word(text).ok_or(LineFault::Bad)?;
    let (word, rest) = next_word(rest).ok_or(LineFault::Bad)?;
    if next_word(rest).is_some() {
        return Err(LineFault::Bad);
    }
    let begins = begins(word).ok_or(LineFault::Bad)?;
    let place = hidden(alloc, place)?;
    Ok(HeadPrinter { place, begins })
}

/// Whether a spool is closed.
fn closed(word: &[u8]) -> Option<bool>
    ensures { MatchOption result (R.closed_of word.now ≡ None)
        (λ b. R.closed_of word.now ≡ Some b) }
{
    if word == b"closed".as_slice() {
        Some(true)
    } else if word == b"open".as_slice() {
        Some(false)
    } else {
        None
    }
}

/// Whether each printer is stopped, as the words of a text say.
fn stopped(alloc: Global, text: &[u8]) -> Result<Vec<bool>, LineFault>
    ensures { MatchResult result
        (λ v. R.stopped_onto [] (words_of text.now) ≡ Some v.items)
        (λ f. (f ≡ LineFault.Memory)
        ⊎ ((f ≡ LineFault.Bad) × (R.stopped_onto [] (words_of text.now) ≡ None))) }
{
    let mut flags = Vec::new(alloc);
    let mut rest = text;
    while let Some((word, after)) = next_word(rest) {
        if word == b"stopped".as_slice() {
            flags.push(true)?;
        } else if word == b"running".as_slice() {
            flags.push(false)?;
        } else {
            return Err(LineFault::Bad);
        }
        rest = after;
    }
    Ok(flags)
}

/// What the entries of a segment begin from.
fn base(alloc: Global, text: &[u8]) -> Result<Base, LineFault>
    ensures { MatchResult result
        (λ b. R.base_in (words_of text.now) ≡ Some (base_seen b))
        (λ f. (f ≡ LineFault.Memory)
        ⊎ ((f ≡ LineFault.Bad) × (R.base_in (words_of text.now) ≡ None))) }
{
    let (accepted, rest) = next_word(text).ok_or(LineFault::Bad)?;
    let (reserved, rest) = next_word(rest).ok_or(LineFault::Bad)?;
    let (word, rest) = next_word(rest).ok_or(LineFault::Bad)?;
    let accepted = number(accepted).ok_or(LineFault::Bad)?;
    let reserved = number(reserved).ok_or(LineFault::Bad)?;
    let closed = closed(word).ok_or(LineFault::Bad)?;
    let stopped = stopped(alloc, rest)?;
    Ok(Base {
        accepted,
        reserved,
        closed,
        stopped,
    })
}

/// What the entries of a segment begin from that begins amid jobs.
fn amid(text: &[u8]) -> Option<Begin>
    ensures { MatchOption result (R.amid_in (words_of text.now) ≡ None)
        (λ b. R.amid_in (words_of text.now) ≡ Some (begin_seen b)) }
{
    let (since, rest) = next_word(text)?;
    let (freed, rest) = next_word(rest)?;
    if next_word(rest).is_some() {
        return None;
    }
    let since = number(since)?;
    let freed = number(freed)?;
    Some(Begin::Amid { since, freed })
}

/// What the entries of a segment begin from, as the words of a text say behind this word.
fn begin(alloc: Global, word: StartWord, text: &[u8]) -> Result<Begin, LineFault>
    ensures { MatchResult result
        (λ b. R.begin_in word (words_of text.now) ≡ Some (begin_seen b))
        (λ f. (f ≡ LineFault.Memory)
        ⊎ ((f ≡ LineFault.Bad) × (R.begin_in word (words_of text.now) ≡ None))) }
{
    match word {
        StartWord::Base => {
            let base = base(alloc, text)?;
            Ok(Begin::Base(base))
        }
        StartWord::Part => amid(text).ok_or(LineFault::Bad),
    }
}

/// What is before a segment, as the words of a text say behind this word.
fn start(alloc: Global, word: StartWord, text: &[u8]) -> Result<Start, LineFault>
    ensures { MatchResult result
        (λ s. R.start_in word (words_of text.now) ≡ Some (start_seen s))
        (λ f. (f ≡ LineFault.Memory)
        ⊎ ((f ≡ LineFault.Bad) × (R.start_in word (words_of text.now) ≡ None))) }
{
    let (entries, rest) = next_word(text).ok_or(LineFault::Bad)?;
    let (kinds, rest) = next_word(rest).ok_or(LineFault::Bad)?;
    let (handed, rest) = next_word(rest).ok_or(LineFault::Bad)?;
    let entries = number(entries).ok_or(LineFault::Bad)?;
    let kinds = number(kinds).ok_or(LineFault::Bad)?;
    let handed = number(handed).ok_or(LineFault::Bad)?;
    let begin = begin(alloc, word, rest)?;
    Ok(Start {
        entries,
        kinds,
        handed,
        begin,
    })
}

/// The end of a segment.
fn last(text: &[u8]) -> Option<Last>
    ensures { MatchOption result (R.last_in (words_of text.now) ≡ None)
        (λ l. R.last_in (words_of text.now) ≡ Some (last_seen l)) }
{
    let (entries, rest) = next_word(text)?;
    let (digits, rest) = next_word(rest)?;
    if next_word(rest).is_some() {
        return None;
    }
    let entries = number(entries)?;
    let digest = digest(digits)?;
    Some(Last { entries, digest })
}

/// What the words of a line tell: where a segment stands.
fn read_origin(alloc: Global, line: &[u8]) -> Result<Origin, LineFault>
    ensures { MatchResult result (λ v. R.origin_of line.now ≡ Some (origin_seen v))
        (λ f. (f ≡ LineFault.Memory) ⊎ ((f ≡ LineFault.Bad) × (R.origin_of line.now ≡ None))) }
{
    let (word, rest) = next_word(line).ok_or(LineFault::Bad)?;
    if word != b"account".as_slice() {
        return Err(LineFault::Bad);
    }
    origin(alloc, rest)
}

/// What a line (without its LF) means: where a segment stands.
///
/// `Bad` exactly where it is the line of none that can be told; `Memory` where memory is refused.
pub fn parse_origin(alloc: Global, line: &[u8]) -> Result<Origin, LineFault>
    ensures { MatchResult result (λ v. line.now ≡ H.origin_line (origin_seen v))
        (λ f. (f ≡ LineFault.Memory) ⊎ ((f ≡ LineFault.Bad) × M.IsNoOrigin line.now)) }
{
    let origin = read_origin(alloc, line)?;
    let written = write_origin(alloc, &origin)?;
    if written.as_slice() == line {
        Ok(origin)
    } else {
        Err(LineFault::Bad)
    }
}

/// What the words of a line tell of a printer.
fn read_printer(alloc: Global, line: &[u8]) -> Result<HeadPrinter, LineFault>
    ensures { MatchResult result (λ v. R.printer_of line.now ≡ Some (printer_seen v))
        (λ f. (f ≡ LineFault.Memory)
        ⊎ ((f ≡ LineFault.Bad) × (R.printer_of line.now ≡ None))) }
{
    let (word, rest) = next_word(line).ok_or(LineFault::Bad)?;
    if word != b"printer".as_slice() {
        return Err(LineFault::Bad);
    }
    printer(alloc, rest)
}

/// What a line (without its LF) means of a printer.
///
/// `Bad` exactly where it is the line of none that can be told; `Memory` where memory is refused.
pub fn parse_printer(alloc: Global, line: &[u8]) -> Result<HeadPrinter, LineFault>
    ensures { MatchResult result (λ v. line.now ≡ H.printer_line (printer_seen v))
        (λ f. (f ≡ LineFault.Memory) ⊎ ((f ≡ LineFault.Bad) × M.IsNoPrinter line.now)) }
{
    let printer = read_printer(alloc, line)?;
    let written = write_printer(alloc, &printer)?;
    if written.as_slice() == line {
        Ok(printer)
    } else {
        Err(LineFault::Bad)
    }
}

/// The first word of a line that tells what is before a segment.
#[derive(Clone, Copy, Debug, PartialEq, Eq)]
enum StartWord {
    /// It begins from a base.
    Base,
    /// It begins amid jobs.
    Part,
}

/// Which first word this is of a line that tells what is before a segment.
fn start_word(word: &[u8]) -> Option<StartWord>
    ensures { MatchOption result (R.start_word_of word.now ≡ None)
        (λ w. R.start_word_of word.now ≡ Some w) }
{
    if word == b"base".as_slice() {
        Some(StartWord::Base)
    } else if word == b"part".as_slice() {
        Some(StartWord::Part)
    } else {
        None
    }
}

/// What the words of a line tell: what is before a segment.
fn read_start(alloc: Global, line: &[u8]) -> Result<Start, LineFault>
    ensures { MatchResult result (λ v. R.start_of line.now ≡ Some (start_seen v))
        (λ f. (f ≡ LineFault.Memory) ⊎ ((f ≡ LineFault.Bad) × (R.start_of line.now ≡ None))) }
{
    let (word, rest) = next_word(line).ok_or(LineFault::Bad)?;
    let word = start_word(word).ok_or(LineFault::Bad)?;
    start(alloc, word, rest)
}

/// What a line (without its LF) means: what is before a segment.
///
/// `Bad` exactly where it is the line of none that can be told; `Memory` where memory is refused.
pub fn parse_start(alloc: Global, line: &[u8]) -> Result<Start, LineFault>
    ensures { MatchResult result (λ v. line.now ≡ H.start_line (start_seen v))
        (λ f. (f ≡ LineFault.Memory) ⊎ ((f ≡ LineFault.Bad) × M.IsNoStart line.now)) }
{
    let start = read_start(alloc, line)?;
    let written = write_start(alloc, &start)?;
    if written.as_slice() == line {
        Ok(start)
    } else {
        Err(LineFault::Bad)
    }
}

/// What the words of a line tell: how a segment ends.
fn read_last(alloc: Global, line: &[u8]) -> Result<Last, LineFault>
    ensures { MatchResult result (λ v. R.last_of line.now ≡ Some (last_seen v))
        (λ f. (f ≡ LineFault.Memory) ⊎ ((f ≡ LineFault.Bad) × (R.last_of line.now ≡ None))) }
{
    let _alloc = alloc;
    let (word, rest) = next_word(line).ok_or(LineFault::Bad)?;
    if word != b"end".as_slice() {
        return Err(LineFault::Bad);
    }
    last(rest).ok_or(LineFault::Bad)
}

/// What a line (without its LF) means: how a segment ends.
///
/// `Bad` exactly where it is the line of none that can be told; `Memory` where memory is refused.
pub fn parse_last(alloc: Global, line: &[u8]) -> Result<Last, LineFault>
    ensures { MatchResult result (λ v. (line.now ≡ H.last_line (last_seen v))
        × (R.last_of line.now ≡ Some (last_seen v)))
        (λ f. (f ≡ LineFault.Memory) ⊎ ((f ≡ LineFault.Bad) × M.IsNoLast line.now)) }
{
    let last = read_last(alloc, line)?;
    let written = write_last(alloc, &last)?;
    if written.as_slice() == line {
        Ok(last)
    } else {
        Err(LineFault::Bad)
    }
}
