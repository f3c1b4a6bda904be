//! Copies of what stands at the head of a segment: a line goes to the caller, and the audit keeps what it says.

ghost use Rattle.std.specs.Prelude.{◌≡◌, IfOk};
ghost use Rattle.account.specs.Seen.{base_seen};
ghost use Rattle.segment_text.specs.Seen.{begin_seen, origin_seen, printer_seen, start_seen};

use account::Base;
use lpd_values::Octets;
use segment_text::{Begin, HeadPrinter, Origin, Start};
use std::alloc::{AllocError, Global};

/// The same octets once more.
fn copy_octets(alloc: Global, octets: &Octets) -> Result<Octets, AllocError>
    ensures { IfOk result (λ copy. copy ≡ octets.now) }
{
    Octets::copy_of(alloc, octets.as_slice())
}

/// Where a segment stands, once more.
///
/// AllocError where memory is refused.
pub(crate) fn copy_origin(alloc: Global, origin: &Origin) -> Result<Origin, AllocError>
    ensures { IfOk result (λ copy. origin_seen copy ≡ origin_seen origin.now) }
{
    Ok(Origin {
        version: origin.version,
        run: origin.run,
        segment: origin.segment,
        first: copy_octets(alloc, &origin.first)?,
        last: copy_octets(alloc, &origin.last)?,
        previous: origin.previous,
    })
}

/// A printer's place, once more.
///
/// AllocError where memory is refused.
pub(crate) fn copy_printer(alloc: Global, printer: &HeadPrinter) -> Result<HeadPrinter, AllocError>
    ensures { IfOk result (λ copy. printer_seen copy ≡ printer_seen printer.now) }
{
    Ok(HeadPrinter {
        place: copy_octets(alloc, &printer.place)?,
        begins: printer.begins,
    })
}

/// A base that says the same.
fn copy_base(alloc: Global, base: &Base) -> Result<Base, AllocError>
    ensures { IfOk result (λ copy. base_seen copy ≡ base_seen base.now) }
{
    Ok(Base {
        accepted: base.accepted,
        reserved: base.reserved,
        closed: base.closed,
        stopped: Vec::from_slice(alloc, base.stopped.as_slice())?,
    })
}

/// What entries begin from, once more.
fn copy_begin(alloc: Global, begin: &Begin) -> Result<Begin, AllocError>
    ensures { IfOk result (λ copy. begin_seen copy ≡ begin_seen begin.now) }
{
    match begin {
        Begin::Base(base) => {
            let base = copy_base(alloc, base)?;
            Ok(Begin::Base(base))
        }
        Begin::Amid { since, freed } => Ok(Begin::Amid {
            since: *since,
            freed: *freed,
        }),
    }
}

/// What is before a segment, once more.
///
/// AllocError where memory is refused.
pub(crate) fn copy_start(alloc: Global, start: &Start) -> Result<Start, AllocError>
    ensures { IfOk result (λ copy. start_seen copy ≡ start_seen start.now) }
{
    Ok(Start {
        entries: start.entries,
        kinds: start.kinds,
        handed: start.handed,
        begin: copy_begin(alloc, &start.begin)?,
    })
}
