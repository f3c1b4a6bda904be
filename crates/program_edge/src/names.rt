//! How the files are named that printers write.

use std::fmt;

/// What the name of a job's file in a folder begins with.
pub const JOB_FILE: &str = "job-";

/// The file of a printer that nothing else is said of.
#[derive(Clone, Copy, Debug, PartialEq, Eq)]
pub struct DefaultFile<'a> {
    /// The directory of such files.
    pub directory: &'a str,
    /// The printer's number, from 1.
    pub printer: u32,
}

impl fmt::Display for DefaultFile<'_> {
    ghost use Rattle.std.specs.Prelude.{Some};
    ghost use Rattle.program_edge.specs.Names.{default_file};

    ghost output = { λ file. Some (default_file file) };

    fn fmt<W: fmt::Write>(&self, f: &mut fmt::Formatter<W>) -> fmt::Result {
        let DefaultFile { directory, printer } = self;
        write!(f, "{directory}/printer-{printer}")
    }
}

/// The name of a job's file in a folder: its number in ten digits, or in as many as it has.
#[derive(Clone, Copy, Debug, PartialEq, Eq)]
pub struct JobFileName {
    /// The number.
    pub number: u64,
}

impl fmt::Display for JobFileName {
    ghost use Rattle.std.specs.Prelude.{Some};
    ghost use Rattle.program_edge.specs.Names.{job_file};

    ghost output = { λ name. Some (job_file name) };

    fn fmt<W: fmt::Write>(&self, f: &mut fmt::Formatter<W>) -> fmt::Result {
        let number = self.number;
        write!(f, "{JOB_FILE}{number:010}")
    }
}
