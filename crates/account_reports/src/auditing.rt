//! The audit of an account.

ghost use Rattle.std.specs.Prelude.{◌≡◌, ◌⊎◌};
ghost use Rattle.account_reports.specs.Faults.{end_status};

use crate::fault::ReportFault;
use crate::files::{TakeLines, take_files};
use crate::notes::write_text;
use crate::rereading::Rereading;
use account_usage::AuditRequest;
use log::{Log, info};
use lpd_commands::OctetWrite;
use program_edge::tell;
use segment_audit::{SegmentAudit, SegmentLine, Tally};
use std::alloc::{AllocError, Global};
use std::fs::{File, Files};

/// The part of the program that tells the log how far an audit is.
pub const AUDIT: &str = "account_reports::auditing";

/// After how many lines of a file the log is told how far the audit is.
const STEP: u64 = 100_000;

/// An audit of segments, and of what printers wrote.
#[derive(Drop)]
struct Auditing<'a, 'o, O> {
    /// What was read. None once a line was refused.
    audit: Option<SegmentAudit>,
    rereading: Rereading<'a>,
    /// Whether nothing was read that could be told to begin amid an account, and nothing was asked of what is before it.
    is_open: bool,
    output: &'o mut O,
}

impl<'a, O: OctetWrite> TakeLines<'a> for Auditing<'a, '_, O> {
    fn take<R: Files<File = File> + Log>(
        &mut self,
        rt: &R,
        alloc: Global,
        line: &[u8],
        path: &'a str,
        number: u64,
    ) -> Result<(), ReportFault<'a>> {
        // (a file has one segment, and nothing behind its last line)
        if number != 1 && self.is_between() {
            return Err(ReportFault::Line(path, number));
        }
        let Some(audit) = self.audit.take() else {
            return Err(ReportFault::Line(path, number));
        };
        let got = match audit.read(alloc, line) {
            Ok((audit, got)) => {
                self.audit = Some(audit);
                got
            }
            Err(fault) => return Err(ReportFault::of_line(fault, path, number)),
        };
        self.tell_beginning(alloc, &got)?;
        self.rereading
            .take(rt, alloc, self.output, &got, path, number)?;
        if number % STEP == 0 {
            info!(rt; "{path}: {number} lines");
        }
        Ok(())
    }

    fn end_file(&mut self, path: &'a str, number: u64) -> Result<(), ReportFault<'a>> {
        if number != 1 && self.is_between() {
            return Ok(());
        }
        Err(ReportFault::Line(path, number))
    }
}

impl<O: OctetWrite> Auditing<'_, '_, O> {
    /// Tells where the account begins that is read, where its first segment has another one before it and nobody said which.
    fn tell_beginning<'a>(
        &mut self,
        alloc: Global,
        got: &SegmentLine,
    ) -> Result<(), ReportFault<'a>> {
        let SegmentLine::Origin(origin) = got else {
            return Ok(());
        };
        let is_told = self.is_open && origin.previous.is_some();
        self.is_open = false;
        if !is_told {
            return Ok(());
        }
        let number = origin.segment;
        let line = format!(in alloc; "begins at segment {number}: what came before isn't here\n")?;
        write_text(self.output, line.as_bytes())
    }
}

impl<O> Auditing<'_, '_, O> {
    /// Whether what was read ends with the last line of a segment.
    fn is_between(&self) -> bool {
        match &self.audit {
            Some(audit) => audit.is_between(),
            None => false,
        }
    }
}

/// The line that tells what segments say, in numbers, and the one that tells in which digest they end.
fn summary(alloc: Global, tally: &Tally, digest: &str) -> Result<String, AllocError> {
    let Tally {
        segments,
        entries,
        jobs,
        done,
        removed,
        failed,
        aborted,
    } = tally;
    format!(in alloc;
        "legal segments {segments} entries {entries} jobs {jobs} done {done} removed {removed} failed {failed} aborted {aborted}\nends {digest}\n"
    )
}

impl<'a, O: OctetWrite> Auditing<'a, '_, O> {
    /// All files were read: whether they end as they are to is asked, and what they say is told.
    fn finish(&mut self, alloc: Global, request: &AuditRequest<'a>) -> Result<(), ReportFault<'a>> {
        let last = request.files.last().map_or("", |path| path);
        let Some(audit) = &self.audit else {
            return Err(ReportFault::Line(last, 1));
        };
        let Some(digest) = audit.digest() else {
            return Err(ReportFault::Line(last, 1));
        };
        let written = hex::encode(alloc, digest)?;
        if let Some(wanted) = &request.ends {
            if wanted.as_slice() != digest.as_slice() {
                return Err(ReportFault::Ends(last, written));
            }
        }
        let tally = audit.tally();
        let text = summary(alloc, &tally, written.as_str())?;
        write_text(self.output, text.as_bytes())?;
        self.rereading.end(alloc, self.output)
    }
}

/// Audits the segments of these files.
fn audit_files<'a, R: Files<File = File> + Log, O: OctetWrite>(
    rt: &R,
    alloc: Global,
    request: &AuditRequest<'a>,
    output: &mut O,
) -> Result<(), ReportFault<'a>> {
    let (printed, taken) = (request.printed.as_slice(), request.taken.as_slice());
    let rereading = Rereading::new(alloc, printed, taken)?;
    let mut auditing = Auditing {
        audit: Some(SegmentAudit::begin(request.after)),
        rereading,
        is_open: request.after.is_none(),
        output,
    };
    take_files(&mut auditing, rt, alloc, request.files.as_slice())?;
    auditing.finish(alloc, request)
}

/// The exit status of an end. A fault is told.
pub(crate) fn ended<E: OctetWrite>(
    alloc: Global,
    end: Result<(), ReportFault>,
    faults: &mut E,
) -> u8
    ensures { result ≡ end_status end.entry }
{
    let Err(fault) = end else {
        return 0;
    };
    // There is nowhere else to tell of a fault here: the exit status says that there was one.
    let _ = tell(alloc, &fault, faults);
    fault.status()
}

/// Audits an account: each line of its segments, which segment follows on which, and, where that is asked for, what printers wrote. Tells
/// `output` what it says in numbers and in which digest it ends, and `faults` in a line what is wrong. The log is told at INFO how far
/// it is, by `AUDIT`, and why a file can't be read. Memory is taken for the held jobs, for one line and for one page, however long the
/// account is.
///
/// Answers the exit status: 0 where all is legal and was printed so, 6 where it isn't, 4 for memory and files.
pub fn audit<R: Files<File = File> + Log, O: OctetWrite, E: OctetWrite>(
    rt: &R,
    alloc: Global,
    request: &AuditRequest,
    output: &mut O,
    faults: &mut E,
) -> u8
    ensures { (result ≡ 0) ⊎ (result ≡ 4) ⊎ (result ≡ 6) }
{
    let end = audit_files(rt, alloc, request, output);
    ended(alloc, end, faults)
}
