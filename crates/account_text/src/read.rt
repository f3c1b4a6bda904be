//! Entries as they are read. A line is read by its words, and what was read is written again: only where that gives the
//! same line does the line mean it.

ghost use Rattle.std.specs.Prelude.{◌≡◌, ◌⊎◌, [], Some, None, MatchOption, MatchResult};
ghost use Rattle.account.specs.Seen.{act_seen, event_seen, sheet_seen, turn_seen};
ghost use Rattle.account_text.specs.Meant.{Means, MeansNothing};
ghost use Rattle.account_text.specs.Reading as R;

use crate::control::control;
use crate::fault::LineFault;
use crate::values::{digest, kind, name, number, progress, short, wholly};
use crate::words::next_word;
use crate::write::write_entry;
use account::{Act, Entry, Kind, Outline, Sheet, Turn};
use std::alloc::Global;

/// What is told of a page.
fn outline(text: &[u8]) -> Option<Outline>
    ensures { MatchOption result (R.outline_in (R.words_of text.now) ≡ None)
        (λ page. R.outline_in (R.words_of text.now) ≡ Some page) }
{
    let (length, rest) = next_word(text)?;
    let (digits, rest) = next_word(rest)?;
    if next_word(rest).is_some() {
        return None;
    }
    let length = short(length)?;
    let digest = digest(digits)?;
    Some(Outline { length, digest })
}

/// A page at a printer.
fn sheet(text: &[u8]) -> Option<Sheet>
    ensures { MatchOption result (R.sheet_in (R.words_of text.now) ≡ None)
        (λ s. R.sheet_in (R.words_of text.now) ≡ Some (sheet_seen s)) }
{
    let (job, rest) = next_word(text)?;
    let (place, rest) = next_word(rest)?;
    let (file, rest) = next_word(rest)?;
    let (page_number, rest) = next_word(rest)?;
    let job = number(job)?;
    let place = number(place)?;
    let file = number(file)?;
    let number = number(page_number)?;
    let page = outline(rest)?;
    Some(Sheet {
        job,
        place,
        file,
        number,
        page,
    })
}

/// What became of a page at a printer.
fn at_printer(text: &[u8], turn: Turn) -> Option<Entry>
    ensures { MatchOption result (R.at_printer_in (turn_seen turn) (R.words_of text.now) ≡ None)
        (λ e. R.at_printer_in (turn_seen turn) (R.words_of text.now) ≡ Some (event_seen e)) }
{
    let (printer, rest) = next_word(text)?;
    let printer = short(printer)?;
    let sheet = sheet(rest)?;
    Some(Entry::AtPrinter(printer, sheet, turn))
}

/// What was said when a page was printed.
fn printed(text: &[u8]) -> Option<Entry>
    ensures { MatchOption result (R.printed_in (R.words_of text.now) ≡ None)
        (λ e. R.printed_in (R.words_of text.now) ≡ Some (event_seen e)) }
{
    let (said, rest) = next_word(text)?;
    let said = progress(said)?;
    at_printer(rest, Turn::Printed(said))
}

/// A job that was accepted.
fn opened(text: &[u8]) -> Option<Entry>
    ensures { MatchOption result (R.opened_in (R.words_of text.now) ≡ None)
        (λ e. R.opened_in (R.words_of text.now) ≡ Some (event_seen e)) }
{
    let (job, rest) = next_word(text)?;
    let (sender, rest) = next_word(rest)?;
    let (queue, rest) = next_word(rest)?;
    if next_word(rest).is_some() {
        return None;
    }
    let job = number(job)?;
    let sender = short(sender)?;
    let queue = short(queue)?;
    Some(Entry::Opened { job, sender, queue })
}

/// Printers that were started.
fn started(text: &[u8]) -> Option<Entry>
    ensures { MatchOption result (R.started_in (R.words_of text.now) ≡ None)
        (λ e. R.started_in (R.words_of text.now) ≡ Some (event_seen e)) }
{
    let (queue, rest) = next_word(text)?;
    if next_word(rest).is_some() {
        return None;
    }
    let queue = short(queue)?;
    Some(Entry::Started(queue))
}

/// A close.
fn closed(text: &[u8]) -> Option<Entry>
    ensures { MatchOption result (R.closed_in (R.words_of text.now) ≡ None)
        (λ e. R.closed_in (R.words_of text.now) ≡ Some (event_seen e)) }
{
    if next_word(text).is_some() {
        return None;
    }
    Some(Entry::Closed)
}

/// The numbers that the words of a text are.
fn numbers(alloc: Global, text: &[u8]) -> Result<Vec<u64>, LineFault>
    ensures { MatchResult result
        (λ v. R.numbers_onto [] (R.words_of text.now) ≡ Some v.items)
        (λ f. (f ≡ LineFault.Memory)
        ⊎ ((f ≡ LineFault.Bad) × (R.numbers_onto [] (R.words_of text.now) ≡ None))) }
{
    let mut numbers = Vec::new(alloc);
    let mut rest = text;
    while let Some((word, after)) = next_word(rest) {
        let n = number(word).ok_or(LineFault::Bad)?;
        numbers.push(n)?;
        rest = after;
    }
    Ok(numbers)
}

/// Jobs that were removed.
fn removed(alloc: Global, text: &[u8]) -> Result<Entry, LineFault>
    ensures { MatchResult result
        (λ e. R.removed_in (R.words_of text.now) ≡ Some (event_seen e))
        (λ f. (f ≡ LineFault.Memory)
        ⊎ ((f ≡ LineFault.Bad) × (R.removed_in (R.words_of text.now) ≡ None))) }
{
    let (queue, rest) = next_word(text).ok_or(LineFault::Bad)?;
    let queue = short(queue).ok_or(LineFault::Bad)?;
    let jobs = numbers(alloc, rest)?;
    Ok(Entry::Removed(queue, jobs))
}

/// A data file that began.
fn began(text: &[u8]) -> Option<Act>
    ensures { MatchOption result (R.began_in (R.words_of text.now) ≡ None)
        (λ a. R.began_in (R.words_of text.now) ≡ Some (act_seen a)) }
{
    let (word, rest) = next_word(text)?;
    let (count, rest) = next_word(rest)?;
    if next_word(rest).is_some() {
        return None;
    }
    let name = name(word)?;
    let count = number(count)?;
    Some(Act::Began { name, count })
}

/// A page that was put into a file.
fn laid(text: &[u8]) -> Option<Act>
    ensures { MatchOption result (R.put_in (R.words_of text.now) ≡ None)
        (λ a. R.put_in (R.words_of text.now) ≡ Some (act_seen a)) }
{
    let (file, rest) = next_word(text)?;
    let (page_number, rest) = next_word(rest)?;
    let file = number(file)?;
    let number = number(page_number)?;
    let page = outline(rest)?;
    Some(Act::Put { file, number, page })
}

/// A data file that ended.
fn ended(text: &[u8]) -> Option<Act>
    ensures { MatchOption result (R.ended_in (R.words_of text.now) ≡ None)
        (λ a. R.ended_in (R.words_of text.now) ≡ Some (act_seen a)) }
{
    let (file, rest) = next_word(text)?;
    let (whole, rest) = next_word(rest)?;
    if next_word(rest).is_some() {
        return None;
    }
    let file = number(file)?;
    let is_whole = wholly(whole)?;
    Some(Act::FileEnded { file, is_whole })
}

/// A control file that came.
fn controlled(alloc: Global, text: &[u8]) -> Result<Act, LineFault>
    ensures { MatchResult result
        (λ a. R.controlled_in (R.words_of text.now) ≡ Some (act_seen a))
        (λ f. (f ≡ LineFault.Memory)
        ⊎ ((f ≡ LineFault.Bad) × (R.controlled_in (R.words_of text.now) ≡ None))) }
{
    let (whole, rest) = next_word(text).ok_or(LineFault::Bad)?;
    let is_whole = wholly(whole).ok_or(LineFault::Bad)?;
    let control = control(alloc, rest)?;
    Ok(Act::Controlled { control, is_whole })
}

/// An act that has no words.
fn alone(text: &[u8], act: Act) -> Option<Act>
    ensures { MatchOption result (R.alone_in (act_seen act) (R.words_of text.now) ≡ None)
        (λ a. R.alone_in (act_seen act) (R.words_of text.now) ≡ Some (act_seen a)) }
{
    if next_word(text).is_some() {
        return None;
    }
    Some(act)
}

/// What a job's session did.
fn act(alloc: Global, kind: Kind, text: &[u8]) -> Result<Act, LineFault>
    ensures { MatchResult result
        (λ a. R.act_in kind (R.words_of text.now) ≡ Some (act_seen a))
        (λ f. (f ≡ LineFault.Memory)
        ⊎ ((f ≡ LineFault.Bad) × (R.act_in kind (R.words_of text.now) ≡ None))) }
{
    match kind {
        Kind::Granted => alone(text, Act::Granted).ok_or(LineFault::Bad),
        Kind::Began => began(text).ok_or(LineFault::Bad),
        Kind::Put => laid(text).ok_or(LineFault::Bad),
        Kind::FileEnded => ended(text).ok_or(LineFault::Bad),
        Kind::Controlled => controlled(alloc, text),
        Kind::Aborted => alone(text, Act::Aborted).ok_or(LineFault::Bad),
        _ => Err(LineFault::Bad),
    }
}

/// What a job's session did, with the job's number.
fn of_job(alloc: Global, kind: Kind, text: &[u8]) -> Result<Entry, LineFault>
    ensures { MatchResult result
        (λ e. R.of_job_in kind (R.words_of text.now) ≡ Some (event_seen e))
        (λ f. (f ≡ LineFault.Memory)
        ⊎ ((f ≡ LineFault.Bad) × (R.of_job_in kind (R.words_of text.now) ≡ None))) }
{
    let (job, rest) = next_word(text).ok_or(LineFault::Bad)?;
    let job = number(job).ok_or(LineFault::Bad)?;
    let act = act(alloc, kind, rest)?;
    Ok(Entry::OfJob(job, act))
}

/// The entry of a kind that the words of a text tell.
fn entry(alloc: Global, kind: Kind, text: &[u8]) -> Result<Entry, LineFault>
    ensures { MatchResult result
        (λ e. R.event_in kind (R.words_of text.now) ≡ Some (event_seen e))
        (λ f. (f ≡ LineFault.Memory)
        ⊎ ((f ≡ LineFault.Bad) × (R.event_in kind (R.words_of text.now) ≡ None))) }
{
    match kind {
        Kind::Opened => opened(text).ok_or(LineFault::Bad),
        Kind::Handed => at_printer(text, Turn::Handed).ok_or(LineFault::Bad),
        Kind::Printed => printed(text).ok_or(LineFault::Bad),
        Kind::Failed => at_printer(text, Turn::Failed).ok_or(LineFault::Bad),
        Kind::Removed => removed(alloc, text),
        Kind::Started => started(text).ok_or(LineFault::Bad),
        Kind::Closed => closed(text).ok_or(LineFault::Bad),
        _ => of_job(alloc, kind, text),
    }
}

/// The entry that the words of a line tell.
fn read(alloc: Global, line: &[u8]) -> Result<Entry, LineFault>
    ensures { MatchResult result (λ e. R.event_of line.now ≡ Some (event_seen e))
        (λ f. (f ≡ LineFault.Memory)
        ⊎ ((f ≡ LineFault.Bad) × (R.event_of line.now ≡ None))) }
{
    let (word, rest) = next_word(line).ok_or(LineFault::Bad)?;
    let kind = kind(word).ok_or(LineFault::Bad)?;
    entry(alloc, kind, rest)
}

/// The entry that a line (without its LF) means. Bad exactly where it means none.
pub fn parse_entry(alloc: Global, line: &[u8]) -> Result<Entry, LineFault>
    ensures { MatchResult result (Means line.now)
        (λ f. (f ≡ LineFault.Memory) ⊎ ((f ≡ LineFault.Bad) × MeansNothing line.now)) }
{
    let entry = read(alloc, line)?;
    let written = write_entry(alloc, &entry)?;
    if written.as_slice() == line {
        Ok(entry)
    } else {
        Err(LineFault::Bad)
    }
}
