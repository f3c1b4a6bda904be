//! The lines as they are written.

ghost use Rattle.std.specs.Prelude.{◌≡◌, ◌++◌, IfOk, OnOk};
ghost use Rattle.account.specs.Seen.{base_seen};
ghost use Rattle.segment_text.specs.Heads as H;
ghost use Rattle.segment_text.specs.Seen.{begin_seen, last_seen, origin_seen, printer_seen, start_seen};

use crate::head::{Begin, HeadPrinter, Last, Origin, Start, Version};
use account::Base;
use account_text::{put_hexed, put_number, put_plain, put_shown};
use config_values::{Config, Queue};
use std::alloc::{AllocError, Global};

/// Puts the digest of the segment before, if there is one.
fn put_previous(
    line: &mut Vec<u8>,
    alloc: Global,
    previous: &Option<[u8; 32]>,
) -> Result<(), AllocError>
    ensures { OnOk result (line.new.items ≡ line.old.items ++ H.previous_words previous.now) }
{
    match previous {
        None => line.extend_from_slice(b" first"),
        Some(digest) => {
            line.extend_from_slice(b" after")?;
            put_hexed(line, alloc, digest)
        }
    }
}

/// Puts a version.
fn put_version(line: &mut Vec<u8>, version: Version) -> Result<(), AllocError>
    ensures { OnOk result (line.new.items ≡ line.old.items ++ H.version_word version) }
{
    match version {
        Version::One => line.extend_from_slice(b" 1"),
        Version::Two => line.extend_from_slice(b" 2"),
    }
}

/// The line that says where a segment stands, without its LF.
///
/// AllocError where memory is refused.
pub fn write_origin(alloc: Global, origin: &Origin) -> Result<Vec<u8>, AllocError>
    ensures { IfOk result (λ line. line.items ≡ H.origin_line (origin_seen origin.now)) }
{
    let mut line = Vec::new(alloc);
    line.extend_from_slice(b"account")?;
    put_version(&mut line, origin.version)?;
    put_number(&mut line, alloc, origin.run)?;
    put_number(&mut line, alloc, origin.segment)?;
    put_plain(&mut line, origin.first.as_slice())?;
    put_plain(&mut line, origin.last.as_slice())?;
    put_previous(&mut line, alloc, &origin.previous)?;
    Ok(line)
}

/// Puts the queues.
fn put_queues(line: &mut Vec<u8>, alloc: Global, queues: &[Queue]) -> Result<(), AllocError>
    ensures { OnOk result (line.new.items ≡ line.old.items ++ H.queues_words queues.now) }
{
    let Some((first, rest)) = queues.split_first() else {
        return Ok(());
    };
    put_plain(line, first.name())?;
    put_number(line, alloc, u64::from(first.limit()))?;
    put_number(line, alloc, u64::from(first.printers()))?;
    put_queues(line, alloc, rest)
}

/// The line of a configuration, without its LF.
///
/// AllocError where memory is refused.
pub fn write_config(alloc: Global, config: &Config) -> Result<Vec<u8>, AllocError>
    ensures { IfOk result (λ line. line.items ≡ H.config_line config.now) }
{
    let mut line = Vec::new(alloc);
    line.extend_from_slice(b"config")?;
    put_number(&mut line, alloc, u64::from(config.pages()))?;
    put_number(&mut line, alloc, u64::from(config.page_size()))?;
    put_number(&mut line, alloc, u64::from(config.max_jobs()))?;
    put_number(&mut line, alloc, config.account())?;
    put_queues(&mut line, alloc, config.queues())?;
    Ok(line)
}

/// Puts where what is printed begins, or a dash.
fn put_begins(line: &mut Vec<u8>, alloc: Global, begins: Option<u64>) -> Result<(), AllocError>
    ensures { OnOk result (line.new.items ≡ line.old.items ++ H.begins_word begins) }
{
    match begins {
        None => line.extend_from_slice(b" -"),
        Some(number) => put_number(line, alloc, number),
    }
}

/// The line of a printer, without its LF.
///
/// AllocError where memory is refused.
pub fn write_printer(alloc: Global, printer: &HeadPrinter) -> Result<Vec<u8>, AllocError>
    ensures { IfOk result (λ line. line.items ≡ H.printer_line (printer_seen printer.now)) }
{
    let mut line = Vec::new(alloc);
    line.extend_from_slice(b"printer")?;
    put_shown(&mut line, alloc, printer.place.as_slice())?;
    put_begins(&mut line, alloc, printer.begins)?;
    Ok(line)
}

/// Puts whether a spool is closed.
fn put_closed(line: &mut Vec<u8>, closed: bool) -> Result<(), AllocError>
    ensures { OnOk result (line.new.items ≡ line.old.items ++ H.closed_word closed) }
{
    if closed {
        line.extend_from_slice(b" closed")
    } else {
        line.extend_from_slice(b" open")
    }
}

/// Puts whether each printer is stopped.
fn put_stopped(line: &mut Vec<u8>, stopped: &[bool]) -> Result<(), AllocError>
    ensures { OnOk result (line.new.items ≡ line.old.items ++ H.stopped_words stopped.now) }
{
    let Some((first, rest)) = stopped.split_first() else {
        return Ok(());
    };
    if *first {
        line.extend_from_slice(b" stopped")?;
    } else {
        line.extend_from_slice(b" running")?;
    }
    put_stopped(line, rest)
}

/// Puts a base.
fn put_base(line: &mut Vec<u8>, alloc: Global, base: &Base) -> Result<(), AllocError>
    ensures { OnOk result (line.new.items ≡ line.old.items ++ H.base_words (base_seen base.now)) }
{
    put_number(line, alloc, base.accepted)?;
    put_number(line, alloc, base.reserved)?;
    put_closed(line, base.closed)?;
    put_stopped(line, base.stopped.as_slice())
}

/// The first word of the line of what is before a segment.
fn put_start_word(line: &mut Vec<u8>, begin: &Begin) -> Result<(), AllocError>
    ensures { OnOk result (line.new.items
        ≡ line.old.items ++ H.start_word (begin_seen begin.now)) }
{
    match begin {
        Begin::Base(_) => line.extend_from_slice(b"base"),
        Begin::Amid { .. } => line.extend_from_slice(b"part"),
    }
}

/// Puts what entries begin from.
fn put_begin(line: &mut Vec<u8>, alloc: Global, begin: &Begin) -> Result<(), AllocError>
    ensures { OnOk result (line.new.items
        ≡ line.old.items ++ H.begin_words (begin_seen begin.now)) }
{
    match begin {
        Begin::Base(base) => put_base(line, alloc, base),
        Begin::Amid { since, freed } => {
            put_number(line, alloc, *since)?;
            put_number(line, alloc, *freed)
        }
    }
}

/// The line of what is before a segment, without its LF.
///
/// AllocError where memory is refused.
pub fn write_start(alloc: Global, start: &Start) -> Result<Vec<u8>, AllocError>
    ensures { IfOk result (λ line. line.items ≡ H.start_line (start_seen start.now)) }
{
    let mut line = Vec::new(alloc);
    put_start_word(&mut line, &start.begin)?;
    put_number(&mut line, alloc, start.entries)?;
    put_number(&mut line, alloc, start.kinds)?;
    put_number(&mut line, alloc, start.handed)?;
    put_begin(&mut line, alloc, &start.begin)?;
    Ok(line)
}

/// The last line of a segment, without its LF.
///
/// AllocError where memory is refused.
pub fn write_last(alloc: Global, last: &Last) -> Result<Vec<u8>, AllocError>
    ensures { IfOk result (λ line. line.items ≡ H.last_line (last_seen last.now)) }
{
    let mut line = Vec::new(alloc);
    line.extend_from_slice(b"end")?;
    put_number(&mut line, alloc, last.entries)?;
    put_hexed(&mut line, alloc, &last.digest)?;
    Ok(line)
}
