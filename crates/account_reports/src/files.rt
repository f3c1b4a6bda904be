//! The files of segments, line by line.

use crate::fault::ReportFault;
use crate::line_reader::LineReader;
use log::Log;
use lpd_commands::OctetRead;
use program_edge::{StreamReader, tell_cause};
use std::alloc::{AllocError, Global};
use std::fs::{File, Files};

/// The lines of the file at a path. Of one that can't be opened no line can be read.
///
/// AllocError where memory for one line is refused.
fn open_lines<R: Files<File = File>>(
    rt: &R,
    alloc: Global,
    path: &str,
) -> Result<LineReader<StreamReader<File>>, AllocError> {
    LineReader::new(alloc, StreamReader::open(rt, path))
}

/// Tells the log at INFO why the file at a path can't be read, where that is the fault.
fn tell_unread<R: Log>(
    rt: &R,
    path: &str,
    fault: &ReportFault,
    lines: &LineReader<StreamReader<File>>,
) {
    if let ReportFault::ReadFile(_) = fault {
        tell_cause(rt, &path, lines.reader().cause());
    }
}

/// Who is told the lines of files, one after the other.
pub(crate) trait TakeLines<'a> {
    /// Takes the line of this number of the file at a path, without its LF.
    fn take<R: Files<File = File> + Log>(
        &mut self,
        rt: &R,
        alloc: Global,
        line: &[u8],
        path: &'a str,
        number: u64,
    ) -> Result<(), ReportFault<'a>>;

    /// The file at a path has ended, and would have gone on with the line of this number. `Line` where it may not end there.
    fn end_file(&mut self, path: &'a str, number: u64) -> Result<(), ReportFault<'a>>;
}

/// Has all lines of the file at a path taken.
fn take_lines<'a, T: TakeLines<'a>, R: Files<File = File> + Log, I: OctetRead + Drop>(
    taker: &mut T,
    rt: &R,
    alloc: Global,
    path: &'a str,
    lines: &mut LineReader<I>,
) -> Result<(), ReportFault<'a>> {
    for number in 1..u64::MAX {
        match lines.next_line() {
            Ok(Some(line)) => taker.take(rt, alloc, line, path, number)?,
            Ok(None) => return taker.end_file(path, number),
            Err(fault) => return Err(ReportFault::of_reading(fault, path, number)),
        }
    }
    Err(ReportFault::Line(path, u64::MAX))
}

/// Has all lines of the file at a path taken. The log is told why it can't be read.
fn take_file<'a, T: TakeLines<'a>, R: Files<File = File> + Log>(
    taker: &mut T,
    rt: &R,
    alloc: Global,
    path: &'a str,
) -> Result<(), ReportFault<'a>> {
    let mut lines = open_lines(rt, alloc, path)?;
    let taken = take_lines(taker, rt, alloc, path, &mut lines);
    if let Err(fault) = &taken {
        tell_unread(rt, path, fault, &lines);
    }
    taken
}

/// Has the lines of the files at these paths taken, in order.
///
/// `ReadFile` where one can't be read, `Line` where a line of it is too long, or it ends inside one or where it may not, and what who
/// takes them refuses. The log is told why a file can't be read.
pub(crate) fn take_files<'a, T: TakeLines<'a>, R: Files<File = File> + Log>(
    taker: &mut T,
    rt: &R,
    alloc: Global,
    paths: &[&'a str],
) -> Result<(), ReportFault<'a>> {
    for path in paths {
        take_file(taker, rt, alloc, path)?;
    }
    Ok(())
}
