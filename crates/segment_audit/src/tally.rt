//! What segments say so far, in numbers.

ghost use Rattle.std.specs.Prelude.{◌≡◌, ◌≤◌, ◌<◌, ◌+◌, ◌^◌, ◌∷◌, [], if◌then◌else◌, List};
ghost use Rattle.segment_text.specs.Items.{Item, item_seen};
ghost use Rattle.segment_audit.specs.Counted as C;

use account::{Act, Entry, Progress, Turn};
use segment_text::SegmentLine;

/// What segments say so far, in numbers.
#[derive(Clone, Copy, Debug, PartialEq, Eq)]
pub struct Tally {
    /// Segments whose last line was read.
    pub segments: u64,
    /// Entries.
    pub entries: u64,
    /// Jobs that were accepted.
    pub jobs: u64,
    /// Jobs whose last place was printed.
    pub done: u64,
    /// Jobs that were removed, 2^64 - 1 where they are more.
    pub removed: u64,
    /// Pages that failed. Each ends its job, unless that had ended before, by a removal or the close, while the page was at the
    /// printer.
    pub failed: u64,
    /// Jobs that were aborted.
    pub aborted: u64,
}

/// Whether a line is the last one of its segment.
fn is_last(got: &SegmentLine) -> bool
    ensures { result ≡ C.is_last (item_seen got.now) }
{
    matches!(got, SegmentLine::Last(_))
}

/// Whether a line is an entry.
fn is_entry(got: &SegmentLine) -> bool
    ensures { result ≡ C.is_entry (item_seen got.now) }
{
    matches!(got, SegmentLine::Entry(_))
}

/// Whether it says that a job was accepted.
fn is_opening(got: &SegmentLine) -> bool
    ensures { result ≡ C.is_opening (item_seen got.now) }
{
    matches!(got, SegmentLine::Entry(Entry::Opened { .. }))
}

/// Whether it says that the last place of a job was printed.
fn is_done(got: &SegmentLine) -> bool
    ensures { result ≡ C.is_done (item_seen got.now) }
{
    matches!(
        got,
        SegmentLine::Entry(Entry::AtPrinter(_, _, Turn::Printed(Progress::Done)))
    )
}

/// How many jobs it says were removed.
fn removed_in(got: &SegmentLine) -> u64
    ensures { result ≡ C.removed_in (item_seen got.now) }
{
    match got {
        SegmentLine::Entry(Entry::Removed(_, jobs)) => jobs.len() as u64,
        _ => 0,
    }
}

/// Whether it says that a page failed.
fn is_failed(got: &SegmentLine) -> bool
    ensures { result ≡ C.is_failed (item_seen got.now) }
{
    matches!(
        got,
        SegmentLine::Entry(Entry::AtPrinter(_, _, Turn::Failed))
    )
}

/// Whether it says that a job was aborted.
fn is_aborted(got: &SegmentLine) -> bool
    ensures { result ≡ C.is_aborted (item_seen got.now) }
{
    matches!(got, SegmentLine::Entry(Entry::OfJob(_, Act::Aborted)))
}

/// A count with one more, where that is to be counted.
fn count_if(count: u64, is_one: bool) -> u64
    requires { count < 2 ^ 63 }
    ensures value { result ≡ count + (if is_one then 1 else 0) }
    ensures few { result ≤ count + 1 }
{
    if is_one { count + 1 } else { count }
}

impl Tally {
    ghost use Rattle.segment_audit.specs.Told.{IsAtMost, IsTallyOf};

    /// What no line says.
    pub(crate) fn none() -> Tally
        ensures value { IsTallyOf result [] }
        ensures few { IsAtMost 0 result }
    {
        Tally {
            segments: 0,
            entries: 0,
            jobs: 0,
            done: 0,
            removed: 0,
            failed: 0,
            aborted: 0,
        }
    }

    /// With one line more.
    pub(crate) fn with(self, got: &SegmentLine, lines: u64) -> Tally
        requires few { IsAtMost lines self }
        requires room { lines < 2 ^ 62 }
        ensures value { (is : List Item) → IsTallyOf self is
            → IsTallyOf result (item_seen got.now ∷ is) }
        ensures few { IsAtMost (lines + 1) result }
    {
        let _lines = lines;
        let segments = count_if(self.segments, is_last(got));
        let entries = count_if(self.entries, is_entry(got));
        let jobs = count_if(self.jobs, is_opening(got));
        let done = count_if(self.done, is_done(got));
        let removed = self.removed.saturating_add(removed_in(got));
        let failed = count_if(self.failed, is_failed(got));
        let aborted = count_if(self.aborted, is_aborted(got));
        Tally {
            segments,
            entries,
            jobs,
            done,
            removed,
            failed,
            aborted,
        }
    }
}
