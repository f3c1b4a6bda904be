//! A printer whose folder is read again: each job that it finished is a file there.
//!
//! A job's file is the one that its head's number and the jobs before it say: it is there with the job's pages, or that is fault 83,
//! unless `--taken K` says that somebody takes files away. The head of version 1 tells no number. There files are taken in order from the
//! first one on that has a job's pages, in each run anew, and within a run no file may be passed over.

use crate::printers::PrintedFile;
use account::{Entry, Sheet};
use printed_pages::{FolderTrail, TrailFault, judge_job};
use program_edge::JobFileName;
use std::alloc::{AllocError, Global};
use std::fs::{File, Files};

/// The files of a run: from the number of its first one, as many as jobs were finished.
#[derive(Clone, Copy)]
struct RunFiles {
    first: u64,
    count: u64,
}

impl RunFiles {
    /// Whether the file of a number is among them.
    fn has(&self, number: u64) -> bool {
        match number.checked_sub(self.first) {
            Some(at) => at < self.count,
            None => false,
        }
    }
}

/// Which file a job became, where that is told.
#[derive(Clone, Copy)]
pub(crate) struct JobFile {
    /// At which place its run stands among those whose heads tell where they begin.
    run: usize,
    /// The number of the file.
    number: u64,
}

/// A printer whose folder is read again.
#[derive(Drop)]
pub(crate) struct FolderReread {
    printer: u32,
    trail: FolderTrail,
    path: String,
    /// The numbers of the jobs' files in it, rising.
    numbers: Vec<u64>,
    /// The files of the runs whose heads tell where they begin.
    runs: Vec<RunFiles>,
    /// The run that is read is the last of these.
    is_told: bool,
    /// Where it isn't told which file is a job's: how many of the files were passed.
    passed: usize,
    /// And whether files may be passed over until one has a job's pages: the run has just begun, and what lies in the folder from before
    /// isn't told.
    may_skip: bool,
    octets: u64,
}

impl FolderReread {
    /// The folder at this path, of a printer, with these jobs' files.
    pub(crate) fn new(
        alloc: Global,
        printer: u32,
        path: String,
        numbers: Vec<u64>,
    ) -> FolderReread {
        FolderReread {
            printer,
            trail: FolderTrail::new(alloc, printer),
            path,
            numbers,
            runs: Vec::new(alloc),
            is_told: false,
            passed: 0,
            may_skip: true,
            octets: 0,
        }
    }

    /// How many octets were those of the pages that were printed.
    pub(crate) fn octets(&self) -> u64 {
        self.octets
    }

    /// A run begins, whose first job becomes the file of this number, where that is told.
    pub(crate) fn begin_run(&mut self, begins: Option<u64>) -> Result<(), AllocError> {
        self.may_skip = true;
        self.is_told = false;
        if let Some(first) = begins {
            self.runs.push(RunFiles { first, count: 0 })?;
            self.is_told = true;
        }
        Ok(())
    }

    /// The number of the next job's file, where it is told. It is spent.
    fn next_number(&mut self) -> Option<u64> {
        if !self.is_told {
            return None;
        }
        let run = self.runs.last_mut()?;
        let number = run.first.saturating_add(run.count);
        run.count = run.count.saturating_add(1);
        Some(number)
    }

    /// Which file the last job became. None where that isn't told.
    pub(crate) fn last_file(&self) -> Option<JobFile> {
        if !self.is_told {
            return None;
        }
        let run = self.runs.len().checked_sub(1)?;
        let last = self.runs.get(run)?;
        let number = last.first.checked_add(last.count.checked_sub(1)?)?;
        Some(JobFile { run, number })
    }

    /// Whether a later run had a job that became the same file: then somebody took the first one away before that.
    pub(crate) fn is_later(&self, file: JobFile) -> bool {
        let behind = self.runs.get(file.run.saturating_add(1)..).unwrap_or(&[]);
        behind.iter().any(|run| run.has(file.number))
    }

    /// Where the last job should be: its file, or where that isn't told the folder.
    pub(crate) fn wanted(&self, alloc: Global) -> Result<String, AllocError> {
        let path = &self.path;
        match self.last_file() {
            Some(JobFile { number, .. }) => {
                let name = JobFileName { number };
                format!(in alloc; "{path}/{name}")
            }
            None => String::from_str(alloc, path.as_str()),
        }
    }

    /// Reads one entry more: where a job was finished its file is judged.
    ///
    /// `Differs` where it isn't exactly the pages that were printed, `Unread` where it isn't there or can't be read, `Memory`.
    pub(crate) fn take<R: Files<File = File>>(
        &mut self,
        rt: &R,
        alloc: Global,
        entry: &Entry,
    ) -> Result<(), TrailFault> {
        let Some(sheets) = self.trail.take(alloc, entry)? else {
            return Ok(());
        };
        match self.next_number() {
            Some(number) => {
                let octets = self.judge(rt, alloc, number, sheets.as_slice())?;
                self.octets = self.octets.saturating_add(octets);
                Ok(())
            }
            None => self.judge_next(rt, alloc, sheets.as_slice()),
        }
    }

    /// Judges the file of this number against the pages of a job.
    fn judge<R: Files<File = File>>(
        &self,
        rt: &R,
        alloc: Global,
        number: u64,
        sheets: &[Sheet],
    ) -> Result<u64, TrailFault> {
        let name = JobFileName { number };
        let path = format!(in alloc; "{}/{name}", self.path)?;
        let Ok(mut octets) = PrintedFile::open(rt, path.as_str()) else {
            return Err(TrailFault::Unread);
        };
        judge_job(self.printer, alloc, &mut octets, sheets)
    }

    /// Judges the next file against the pages of a job, or where a run has just begun the next one that has them.
    fn judge_next<R: Files<File = File>>(
        &mut self,
        rt: &R,
        alloc: Global,
        sheets: &[Sheet],
    ) -> Result<(), TrailFault> {
        let mut last = Err(TrailFault::Unread);
        for at in self.passed..self.numbers.len() {
            last = self.judge(rt, alloc, self.numbers[at], sheets);
            if let Ok(octets) = last {
                self.passed = at + 1;
                self.octets = self.octets.saturating_add(octets);
                self.may_skip = false;
                return Ok(());
            }
            if !self.may_skip {
                break;
            }
        }
        match last {
            Err(TrailFault::Differs(_)) if self.may_skip => Err(TrailFault::Unread),
            Ok(_) => Ok(()),
            Err(fault) => Err(fault),
        }
    }

    /// Whether a file lies behind the first one of the runs that tell where they begin, and is that of no job.
    fn is_stray(&self, number: u64) -> bool {
        match self.runs.first() {
            Some(first) if first.first <= number => !self.runs.iter().any(|run| run.has(number)),
            _ => false,
        }
    }

    /// The numbers of the files that are those of no job.
    pub(crate) fn strays(&self, alloc: Global) -> Result<Vec<u64>, AllocError> {
        let mut strays = Vec::new(alloc);
        for number in &self.numbers {
            if self.is_stray(*number) {
                strays.push(*number)?;
            }
        }
        Ok(strays)
    }
}
