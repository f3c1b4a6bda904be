//! Why an account isn't told of.

ghost use Rattle.std.specs.Prelude.{◌≡◌};
ghost use Rattle.account_reports.specs.Faults.{fault_status};
ghost use Rattle.account_reports.specs.declared.fault.ReportFault.TheVariants.{Memory};

use crate::line_reader::StreamFault;
use printed_pages::Differs;
use program_edge::FaultName;
use segment_audit::AuditFault;
use std::alloc::{AllocError, AllocFailed};
use std::fmt;

/// A job that a printer finished, of which the file isn't there.
#[derive(Debug, Drop)]
pub(crate) struct Lacks {
    /// The printer's number.
    pub(crate) printer: u32,
    /// The job's number.
    pub(crate) job: u64,
    /// The file that it became; or the folder, where it isn't known which.
    pub(crate) file: String,
}

impl fmt::Display for Lacks {
    fn fmt<W: fmt::Write>(&self, f: &mut fmt::Formatter<W>) -> fmt::Result {
        let Lacks { printer, job, file } = self;
        write!(f, "printer {printer} job {job} isn't in {file}")
    }
}

/// Why an account isn't told as legal, or isn't told.
#[derive(Debug, Drop)]
pub(crate) enum ReportFault<'a> {
    /// The line of this number of the file at a path can't be read, or none more stands there where one has to.
    Line(&'a str, u64),
    /// The entry in the line of this number may not come there.
    Entry(&'a str, u64),
    /// The segment whose head ends in the line of this number doesn't follow.
    Follow(&'a str, u64),
    /// The last segment ends in another digest than the one that is asked for: in this one.
    Ends(&'a str, String),
    /// By the entry in the line of this number a page was printed that isn't in this file.
    Printed(&'a str, u64, Differs, String),
    /// By the entry in the line of this number a printer finished a job, of which the file isn't there.
    Missing(&'a str, u64, Lacks),
    /// The file at this path can't be read.
    ReadFile(&'a str),
    /// Memory was refused.
    Memory,
    /// What is told can't be written.
    WriteFile,
}

impl<'a> ReportFault<'a> {
    /// Why the line of a number is refused.
    pub(crate) fn of_line(fault: AuditFault, path: &'a str, line: u64) -> ReportFault<'a> {
        match fault {
            AuditFault::Line => ReportFault::Line(path, line),
            AuditFault::Entry => ReportFault::Entry(path, line),
            AuditFault::Follow => ReportFault::Follow(path, line),
            AuditFault::Memory => ReportFault::Memory,
        }
    }

    /// Why the line of a number isn't there.
    pub(crate) fn of_reading(fault: StreamFault, path: &'a str, line: u64) -> ReportFault<'a> {
        match fault {
            StreamFault::TooLong | StreamFault::CutOff => ReportFault::Line(path, line),
            StreamFault::Unread => ReportFault::ReadFile(path),
        }
    }

    /// The exit status: 6 where the account isn't as it has to be, 4 for memory and files.
    pub(crate) fn status(&self) -> u8
        ensures { result ≡ fault_status self.now }
    {
        match self {
            ReportFault::Line(..)
            | ReportFault::Entry(..)
            | ReportFault::Follow(..)
            | ReportFault::Ends(..)
            | ReportFault::Printed(..)
            | ReportFault::Missing(..) => 6,
            ReportFault::ReadFile(_) | ReportFault::Memory | ReportFault::WriteFile => 4,
        }
    }
}

impl From<AllocError> for ReportFault<'_> {
    ghost from_gives = { λ _ fault. fault ≡ Memory };

    fn from(_error: AllocError) -> Self {
        ReportFault::Memory
    }
}

impl<T: Drop> From<AllocFailed<T>> for ReportFault<'_> {
    ghost from_gives = { λ _ fault. fault ≡ Memory };

    fn from(_failed: AllocFailed<T>) -> Self {
        ReportFault::Memory
    }
}

impl fmt::Display for ReportFault<'_> {
    fn fmt<W: fmt::Write>(&self, f: &mut fmt::Formatter<W>) -> fmt::Result {
        match self {
            ReportFault::Line(path, line) => write!(f, "fault 80 Line {path}:{line}"),
            ReportFault::Entry(path, line) => write!(f, "fault 81 Entry {path}:{line}"),
            ReportFault::Follow(path, line) => write!(f, "fault 82 Follow {path}:{line}"),
            ReportFault::Ends(path, digest) => {
                write!(f, "fault 82 Follow {path} ends in {digest}")
            }
            ReportFault::Printed(path, line, differs, file) => {
                let Differs {
                    printer,
                    job,
                    place,
                    octet,
                } = differs;
                write!(
                    f,
                    "fault 83 Printed {path}:{line} printer {printer} job {job} place {place} octet {octet} of {file}"
                )
            }
            ReportFault::Missing(path, line, lacks) => {
                write!(f, "fault 83 Printed {path}:{line} {lacks}")
            }
            ReportFault::ReadFile(path) => write!(f, "{} {path}", FaultName::ReadFile),
            ReportFault::Memory => write!(f, "{}", FaultName::Memory),
            ReportFault::WriteFile => write!(f, "{}", FaultName::WriteFile),
        }
    }
}
