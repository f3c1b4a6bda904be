//! A configuration as it is read.

ghost use Rattle.std.specs.Prelude.{◌≡◌, ◌≢◌, ◌↔◌, ◌⊎◌, [], false, true, IsTrue, MatchOption, MatchResult, Some, None, length};
ghost use Rattle.std.specs.List.{list_all, AllByRecursion};
ghost use Rattle.config_values.specs.Config as C;
ghost use Rattle.config_values.specs.Ranges.{IsConfig};
ghost use Rattle.control_lines.specs.Escapes.{is_shown};
ghost use Rattle.account_text.specs.Reading.{words_of};
ghost use Rattle.segment_text.specs.Configs.{AreNamedApart, AreNumbers, AreQueues, FitsPages, is_name_len, is_queue_name};
ghost use Rattle.segment_text.specs.Heads as H;
ghost use Rattle.segment_text.specs.Meant as M;
ghost use Rattle.segment_text.specs.Reading as R;

use crate::write::write_config;
use account_text::{LineFault, next_word, number, short};
use config_values::{Config, Queue};
use std::alloc::Global;

/// Whether a name has no more octets than that of a queue may have, and one at least.
fn has_name_len(name: &[u8]) -> bool
    ensures { result ≡ is_name_len (length name.now) }
{
    1 <= name.len() && name.len() <= 64
}

/// Whether each octet is from 21 to 7E (hexadecimal).
fn is_printable(name: &[u8]) -> bool
    ensures { result ≡ list_all is_shown name.now }
{
    name.iter().all(|octet| 0x21 <= *octet && *octet <= 0x7e)
}

/// Whether a queue may have this name.
fn is_name(name: &[u8]) -> bool
    ensures { result ≡ is_queue_name name.now }
{
    has_name_len(name) && is_printable(name)
}

/// Whether a queue is in its ranges, and its limit within the pages.
fn is_within(pages: u32, queue: &Queue) -> bool
    ensures { IsTrue result ↔ FitsPages pages queue.now }
{
    is_name(queue.name())
        && 1 <= queue.limit()
        && queue.limit() <= pages
        && 1 <= queue.printers()
        && queue.printers() <= 16
}

/// Whether each queue is.
fn are_within(pages: u32, queues: &[Queue]) -> bool
    ensures { IsTrue result ↔ AllByRecursion (FitsPages pages) queues.now }
{
    let Some((first, rest)) = queues.split_first() else {
        return true;
    };
    is_within(pages, first) && are_within(pages, rest)
}

/// Whether no queue has this name.
fn is_own(name: &[u8], queues: &[Queue]) -> bool
    ensures { IsTrue result ↔ AllByRecursion (λ (q : C.Queue). q.name ≢ name.now) queues.now }
{
    let Some((first, rest)) = queues.split_first() else {
        return true;
    };
    first.name() != name && is_own(name, rest)
}

/// Whether no two queues have one name.
fn have_own_names(queues: &[Queue]) -> bool
    ensures { IsTrue result ↔ AreNamedApart queues.now }
{
    let Some((first, rest)) = queues.split_first() else {
        return true;
    };
    is_own(first.name(), rest) && have_own_names(rest)
}

/// Whether there may be these numbers of pages, of octets of a page, of held jobs and of entries.
fn are_numbers(pages: u32, page_size: u32, max_jobs: u32, account: u64) -> bool
    ensures { IsTrue result ↔ AreNumbers pages page_size max_jobs account }
{
    1 <= pages
        && pages <= 65_536
        && 1 <= page_size
        && page_size <= 65_536
        && 1 <= max_jobs
        && max_jobs <= 1_024
        && 1 <= account
        && account <= 1 << 62
}

/// Whether there may be these queues.
fn are_queues(pages: u32, queues: &[Queue]) -> bool
    ensures { IsTrue result ↔ AreQueues pages queues.now }
{
    1 <= queues.len() && queues.len() <= 64 && are_within(pages, queues) && have_own_names(queues)
}

/// The queue of this name. `Bad` where that is no text, so no queue has it.
fn queue_of(alloc: Global, name: &[u8], limit: u32, printers: u32) -> Result<Queue, LineFault>
    ensures { MatchResult result
        (λ q. (q ≡ record { name = name.now; limit = limit; printers = printers })
        × (is_queue_name name.now ≡ true))
        (λ f. (f ≡ LineFault.Memory)
        ⊎ ((f ≡ LineFault.Bad) × (is_queue_name name.now ≡ false))) }
{
    if !is_name(name) {
        return Err(LineFault::Bad);
    }
    let name = Vec::from_slice(alloc, name)?;
    let name = String::from_utf8(name).or(Err(LineFault::Memory))?;
    Ok(Queue::new(name, limit, printers))
}

/// The queues that the words of a text are.
fn queues(alloc: Global, text: &[u8]) -> Result<Vec<Queue>, LineFault>
    ensures { MatchResult result
        (λ v. R.queues_onto [] (words_of text.now) ≡ Some v.items)
        (λ f. (f ≡ LineFault.Memory)
        ⊎ ((f ≡ LineFault.Bad) × (R.queues_onto [] (words_of text.now) ≡ None))) }
{
    let mut queues = Vec::new(alloc);
    let mut rest = text;
    while let Some((name, after)) = next_word(rest) {
        let (limit, after) = next_word(after).ok_or(LineFault::Bad)?;
        let (printers, after) = next_word(after).ok_or(LineFault::Bad)?;
        let limit = short(limit).ok_or(LineFault::Bad)?;
        let printers = short(printers).ok_or(LineFault::Bad)?;
        let queue = queue_of(alloc, name, limit, printers)?;
        queues.push(queue)?;
        rest = after;
    }
    Ok(queues)
}

/// What a configuration is made of, as it stands in its line: the pages, the octets of a page, the held jobs, the entries, and the
/// queues.
type Parts = (u32, u32, u32, u64, Vec<Queue>);

/// What the words of a text tell of a configuration.
fn parts(alloc: Global, text: &[u8]) -> Result<Parts, LineFault>
    ensures { MatchResult result
        (λ p. R.config_in (words_of text.now) ≡ Some (record {
          pages = p.0;
          page_size = p.1;
          max_jobs = p.2;
          account = p.3;
          queues = p.4.items;
        }))
        (λ f. (f ≡ LineFault.Memory)
        ⊎ ((f ≡ LineFault.Bad) × (R.config_in (words_of text.now) ≡ None))) }
{
    let (pages, rest) = next_word(text).ok_or(LineFault::Bad)?;
    let (page_size, rest) = next_word(rest).ok_or(LineFault::Bad)?;
    let (max_jobs, rest) = next_word(rest).ok_or(LineFault::Bad)?;
    let (account, rest) = next_word(rest).ok_or(LineFault::Bad)?;
    let pages = short(pages).ok_or(LineFault::Bad)?;
    let page_size = short(page_size).ok_or(LineFault::Bad)?;
    let max_jobs = short(max_jobs).ok_or(LineFault::Bad)?;
    let account = number(account).ok_or(LineFault::Bad)?;
    let queues = queues(alloc, rest)?;
    Ok((pages, page_size, max_jobs, account, queues))
}

/// What the words of a line tell of a configuration.
fn read_parts(alloc: Global, line: &[u8]) -> Result<Parts, LineFault>
    ensures { MatchResult result
        (λ p. R.config_of line.now ≡ Some (record {
          pages = p.0;
          page_size = p.1;
          max_jobs = p.2;
          account = p.3;
          queues = p.4.items;
        }))
        (λ f. (f ≡ LineFault.Memory)
        ⊎ ((f ≡ LineFault.Bad) × (R.config_of line.now ≡ None))) }
{
    let (word, rest) = next_word(line).ok_or(LineFault::Bad)?;
    if word != b"config".as_slice() {
        return Err(LineFault::Bad);
    }
    parts(alloc, rest)
}

/// A configuration of these numbers and queues, where there may be one.
fn whole(
    pages: u32,
    page_size: u32,
    max_jobs: u32,
    account: u64,
    queues: Vec<Queue>,
) -> Option<Config>
    ensures { MatchOption result (IsConfig (record {
      pages = pages;
      page_size = page_size;
      max_jobs = max_jobs;
      account = account;
      queues = queues.items;
    }) → ⊥) (λ c. c ≡ record {
      pages = pages;
      page_size = page_size;
      max_jobs = max_jobs;
      account = account;
      queues = queues.items;
    }) }
{
    if !are_numbers(pages, page_size, max_jobs, account) {
        return None;
    }
    if !are_queues(pages, queues.as_slice()) {
        return None;
    }
    Some(Config::new(pages, page_size, max_jobs, account, queues))
}

/// The configuration that the words of a line tell, where there may be one of these parts.
fn read_config(alloc: Global, line: &[u8]) -> Result<Config, LineFault>
    ensures { MatchResult result (λ c. R.config_of line.now ≡ Some c)
        (λ f. (f ≡ LineFault.Memory) ⊎ ((f ≡ LineFault.Bad) × M.IsNoConfig line.now)) }
{
    let (pages, page_size, max_jobs, account, queues) = read_parts(alloc, line)?;
    let Some(config) = whole(pages, page_size, max_jobs, account, queues) else {
        return Err(LineFault::Bad);
    };
    Ok(config)
}

/// The configuration that a line (without its LF) means.
///
/// `Bad` exactly where it is the line of none in its ranges; `Memory` where memory is refused.
pub fn parse_config(alloc: Global, line: &[u8]) -> Result<Config, LineFault>
    ensures { MatchResult result (λ c. line.now ≡ H.config_line c)
        (λ f. (f ≡ LineFault.Memory) ⊎ ((f ≡ LineFault.Bad) × M.IsNoConfig line.now)) }
{
    let config = read_config(alloc, line)?;
    let written = write_config(alloc, &config)?;
    if written.as_slice() == line {
        Ok(config)
    } else {
        Err(LineFault::Bad)
    }
}
