//! Lines that tell what of a printer's octets was judged, and what wasn't.

ghost use Rattle.std.specs.Prelude.{◌≡◌};

use crate::fault::ReportFault;
use account_text::put_shown;
use lpd_commands::{OctetWrite, write_all};
use program_edge::JobFileName;
use std::alloc::Global;
use std::fmt;

/// What is told of a printer.
#[derive(Clone, Copy, Debug, PartialEq, Eq)]
pub(crate) enum Told {
    /// So many octets are those of the pages that it printed.
    Judged(u64),
    /// What it printed can't be read again.
    Unread,
    /// No head has it.
    Unknown,
    /// So many octets lie between what a run printed and what the next one did.
    Between(u64),
    /// Its file lost N octets between two runs.
    Lost(u64),
    /// So many octets lie behind the last page.
    Tail(u64),
    /// So many octets of pages were printed behind one that failed, or before the first run that begins here.
    Unplaced(u64),
    /// No file of its folder has the pages of the job of this number.
    Missing(u64),
    /// The file of this number in its folder is that of no job.
    Stray(u64),
}

/// A line about a printer.
#[derive(Drop)]
pub(crate) struct Note {
    /// The printer's number.
    pub(crate) printer: u32,
    /// What is told of it.
    pub(crate) told: Told,
}

impl fmt::Display for Note {
    fn fmt<W: fmt::Write>(&self, f: &mut fmt::Formatter<W>) -> fmt::Result {
        let printer = self.printer;
        match self.told {
            Told::Judged(octets) => writeln!(f, "printed {printer} octets {octets}"),
            Told::Unread => writeln!(f, "not judged {printer}: it can't be read again"),
            Told::Unknown => writeln!(f, "not judged {printer}: the account has no such printer"),
            Told::Between(octets) => {
                writeln!(f, "not judged {printer}: {octets} octets between two runs")
            }
            Told::Lost(octets) => writeln!(
                f,
                "not judged {printer}: its file lost {octets} octets between two runs"
            ),
            Told::Tail(octets) => {
                writeln!(
                    f,
                    "not judged {printer}: {octets} octets behind the last page"
                )
            }
            Told::Unplaced(octets) => writeln!(
                f,
                "not judged {printer}: {octets} octets of pages, of which it isn't known where they begin"
            ),
            Told::Missing(job) => {
                writeln!(f, "not judged {printer}: job {job}, which no file has")
            }
            Told::Stray(number) => {
                let name = JobFileName { number };
                writeln!(f, "not judged {printer}: file {name}, which no job has")
            }
        }
    }
}

/// Writes a text. `WriteFile` where it can't be written.
pub(crate) fn write_text<'a, O: OctetWrite>(
    output: &mut O,
    text: &[u8],
) -> Result<(), ReportFault<'a>> {
    write_all(output, text).or(Err(ReportFault::WriteFile))
}

/// Writes a line about a printer. `WriteFile` where it can't be written, `Memory` where memory for it is refused.
pub(crate) fn put_note<'a, O: OctetWrite>(
    alloc: Global,
    output: &mut O,
    printer: u32,
    told: Told,
) -> Result<(), ReportFault<'a>> {
    let line = format!(in alloc; "{}", Note { printer, told })?;
    write_text(output, line.as_bytes())
}

/// Writes that a run printed to this place, of which it isn't said where it is read again. `WriteFile` where it can't be written, `Memory`
/// where memory for it is refused.
pub(crate) fn put_elsewhere<'a, O: OctetWrite>(
    alloc: Global,
    output: &mut O,
    printer: u32,
    run: u64,
    place: &[u8],
) -> Result<(), ReportFault<'a>> {
    let text = format!(in alloc; "not judged {printer}: run {run} printed to")?;
    let mut line = Vec::from_slice(alloc, text.as_bytes())?;
    put_shown(&mut line, alloc, place)?;
    line.push(b'\n')?;
    write_text(output, line.as_slice())
}
