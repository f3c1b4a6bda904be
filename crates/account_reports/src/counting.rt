//! What was used, as an account tells it.

ghost use Rattle.std.specs.Prelude.{◌≡◌, ◌≤◌, ◌⊎◌, ◌^◌, ◌&&◌, ◌==◌, not};
ghost use Rattle.segment_text.specs.Streams.{HasReadAtMost};

use crate::auditing::ended;
use crate::cells::name_cell;
use crate::fault::ReportFault;
use crate::files::{TakeLines, take_files};
use crate::notes::write_text;
use account_text::put_shown;
use account_usage::{Grouping, Totals, UsageRequest, UsageTable, is_within};
use log::Log;
use lpd_commands::OctetWrite;
use lpd_values::Octets;
use program_edge::tell_cause;
use segment_text::{LineFault, SegmentLine, SegmentReader};
use std::alloc::{AllocError, Global};
use std::fs::{File, Files};
use std::hash::RandomState;
use std::random::RandomSource;

/// How many lines of one segment are read at most.
const MOST_LINES: u64 = 1 << 62;

/// What is told as the file that can't be read where the system gives no random octets.
const RANDOM: &str = "/dev/urandom";

/// A segment that is read, line by line.
#[derive(Drop)]
struct UsageReading {
    reader: SegmentReader,
    /// How many of its lines were read.
    lines: u64,
    ghost few: { (lines ≤ 2 ^ 62) × HasReadAtMost reader lines },
}

impl UsageReading {
    /// A segment of which nothing was read.
    fn begin() -> UsageReading {
        UsageReading {
            reader: SegmentReader::begin(),
            lines: 0,
        }
    }

    /// Reads one line, without its LF.
    ///
    /// `Bad` where it is no line that may stand there, or too many were read; `Memory`.
    fn read(self, alloc: Global, line: &[u8]) -> Result<(UsageReading, SegmentLine), LineFault> {
        let UsageReading { mut reader, lines } = self;
        if lines >= MOST_LINES {
            return Err(LineFault::Bad);
        }
        let got = reader.read(alloc, line)?;
        let lines = lines + 1;
        Ok((UsageReading { reader, lines }, got))
    }
}

/// A table of usage, and how far the segment is read.
#[derive(Drop)]
struct Counting<'a> {
    table: UsageTable,
    /// None once a line was refused.
    reading: Option<UsageReading>,
    since: Option<&'a str>,
    until: Option<&'a str>,
    /// Whether the segment that is read is one of those that are asked for.
    counts: bool,
}

/// The text of a time as octets.
fn octets_of(time: Option<&str>) -> Option<&[u8]> {
    Some(time?.as_bytes())
}

impl<'a> TakeLines<'a> for Counting<'a> {
    fn take<R: Files<File = File> + Log>(
        &mut self,
        _rt: &R,
        alloc: Global,
        line: &[u8],
        path: &'a str,
        number: u64,
    ) -> Result<(), ReportFault<'a>> {
        let Some(reading) = self.reading.take() else {
            return Err(ReportFault::Line(path, number));
        };
        let got = match reading.read(alloc, line) {
            Ok((reading, got)) => {
                self.reading = Some(reading);
                got
            }
            Err(LineFault::Bad) => return Err(ReportFault::Line(path, number)),
            Err(LineFault::Memory) => return Err(ReportFault::Memory),
        };
        if let SegmentLine::Origin(origin) = &got {
            self.counts = is_within(origin, octets_of(self.since), octets_of(self.until));
        }
        self.table.read(alloc, &got, self.counts)?;
        Ok(())
    }

    fn end_file(&mut self, path: &'a str, number: u64) -> Result<(), ReportFault<'a>> {
        match &self.reading {
            Some(reading) if reading.reader.is_over() => {}
            _ => return Err(ReportFault::Line(path, number)),
        }
        self.reading = Some(UsageReading::begin());
        self.counts = false;
        Ok(())
    }
}

/// Whether anything counts.
fn tells(totals: &Totals) -> bool
    ensures { result
        ≡ not (totals.now.jobs == 0 && (totals.now.sent == 0 && totals.now.printed == 0)) }
{
    totals.jobs != 0 || totals.sent != 0 || totals.printed != 0
}

/// Puts a row of a table as a line behind a text, its name shown as one word.
fn put_row(
    text: &mut Vec<u8>,
    alloc: Global,
    name: &[u8],
    totals: &Totals,
) -> Result<(), AllocError> {
    let mut shown = Vec::new(alloc);
    put_shown(&mut shown, alloc, name)?;
    // The name stands behind a space there.
    text.extend_from_slice(shown.get(1..).unwrap_or(&[]))?;
    let Totals {
        jobs,
        sent,
        printed,
    } = totals;
    let numbers = format!(in alloc; " jobs {jobs} sent {sent} printed {printed}\n")?;
    text.extend_from_slice(numbers.as_bytes())
}

/// The name of what usage is told by.
fn heading(by: Grouping) -> &'static str {
    match by {
        Grouping::User => "user",
        Grouping::Host => "host",
        Grouping::Queue => "queue",
    }
}

/// The fields of a row: its name as spreadsheets show it, and its numbers.
fn fields_of(alloc: Global, name: &[u8], totals: &Totals) -> Result<[Octets; 4], AllocError> {
    let jobs = format!(in alloc; "{}", totals.jobs)?;
    let sent = format!(in alloc; "{}", totals.sent)?;
    let printed = format!(in alloc; "{}", totals.printed)?;
    Ok([
        name_cell(alloc, name)?,
        Octets::copy_of(alloc, jobs.as_bytes())?,
        Octets::copy_of(alloc, sent.as_bytes())?,
        Octets::copy_of(alloc, printed.as_bytes())?,
    ])
}

/// Writes rows as records, below one that names their fields.
fn write_records(
    records: &mut csv::Writer<Vec<u8>>,
    by: Grouping,
    rows: &[[Octets; 4]],
) -> Result<(), csv::Error> {
    records.write_fields(&[heading(by).as_bytes(), b"jobs", b"sent", b"printed"])?;
    for fields in rows {
        records.write_fields(&[
            fields[0].as_slice(),
            fields[1].as_slice(),
            fields[2].as_slice(),
            fields[3].as_slice(),
        ])?;
    }
    records.flush()
}

/// A table with commas between (RFC 4180).
///
/// AllocError where memory is refused: nothing else can fail of a table in memory.
fn records_of(alloc: Global, by: Grouping, table: &UsageTable) -> Result<Vec<u8>, AllocError> {
    let mut fields = Vec::new(alloc);
    for (name, totals) in table.rows() {
        if tells(totals) {
            fields.push(fields_of(alloc, name.as_slice(), totals)?)?;
        }
    }
    let mut records = csv::WriterBuilder::new()
        .terminator(csv::Terminator::Any(b'\n'))
        .from_writer(Vec::new(alloc));
    if write_records(&mut records, by, fields.as_slice()).is_err() {
        return Err(AllocError);
    }
    records.into_inner().or(Err(AllocError))
}

/// A table as lines.
fn lines_of(alloc: Global, table: &UsageTable) -> Result<Vec<u8>, AllocError> {
    let mut text = Vec::new(alloc);
    for (name, totals) in table.rows() {
        if tells(totals) {
            put_row(&mut text, alloc, name.as_slice(), totals)?;
        }
    }
    Ok(text)
}

/// Counts what the segments of these files tell, and writes it.
fn tell_usage<'a, R: Files<File = File> + Log + RandomSource, O: OctetWrite>(
    rt: &R,
    alloc: Global,
    request: &UsageRequest<'a>,
    output: &mut O,
) -> Result<(), ReportFault<'a>> {
    let random = match RandomState::new(rt) {
        Ok(random) => random,
        Err(cause) => {
            tell_cause(rt, &RANDOM, Some(cause));
            return Err(ReportFault::ReadFile(RANDOM));
        }
    };
    let mut counting = Counting {
        table: UsageTable::new(alloc, random, request.by),
        reading: Some(UsageReading::begin()),
        since: request.since,
        until: request.until,
        counts: false,
    };
    take_files(&mut counting, rt, alloc, request.files.as_slice())?;
    counting.table.finish(alloc)?;
    if request.csv {
        let text = records_of(alloc, request.by, &counting.table)?;
        return write_text(output, text.as_slice());
    }
    let text = lines_of(alloc, &counting.table)?;
    write_text(output, text.as_slice())
}

/// Tells `output` who used how much, as the segments of these files say: each line of them has to be one that may stand there, and
/// nothing else is checked, since that is for accounts that were audited, or for who trusts the server. The log is told at INFO why a
/// file can't be read, and `faults` in a line what is wrong.
///
/// Answers the exit status: 0 where it was told, 6 where a line can't be read, 4 for memory and files.
pub fn usage<R: Files<File = File> + Log + RandomSource, O: OctetWrite, E: OctetWrite>(
    rt: &R,
    alloc: Global,
    request: &UsageRequest,
    output: &mut O,
    faults: &mut E,
) -> u8
    ensures { (result ≡ 0) ⊎ (result ≡ 4) ⊎ (result ≡ 6) }
{
    let end = tell_usage(rt, alloc, request, output);
    ended(alloc, end, faults)
}
