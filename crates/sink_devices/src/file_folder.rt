//! A folder of files.
//!
//! The files have numbers of their own, since the numbers of jobs begin at 1 at each start. The head of an account's segment tells the
//! first number of its run, and each job that is done spends one, also where its file can't be made: so an audit knows which file is
//! whose. That is why a folder is one printer's alone.

ghost use Rattle.std.specs.Prelude.{◌≡◌, None, Some, false};

use crate::causes::Causes;
use log::{Log, warn};
use printer_sinks::{FolderFault, PrinterFolder};
use program_edge::{JOB_FILE, JobFileName};
use std::alloc::{AllocError, Global};
use std::fs::{File, Files, OpenOptions};
use std::io::{Error, ErrorKind, Write};
use std::os::unix::fs::OpenOptionsExt;
use std::{fs, io};

/// How many names are tried one after another where each is taken.
const TRIES: u32 = 1_000;

/// Who may read and write the files: their owner both, its group read.
const MODE: u32 = 0o640;

/// The name of the hidden file by which it is tried whether a folder takes any.
const TRIAL: &str = ".hurgwaye-trial";

/// Tries whether a file can be made in the folder at this path, and takes it away again. An error where it can't.
pub fn try_folder<R: Files<File = File>>(rt: &R, alloc: Global, path: &str) -> io::Result<()> {
    let trial = format!(in alloc; "{path}/{TRIAL}")?;
    let mut options = OpenOptions::new();
    // One that a server left which was killed amid this is taken.
    options.write(true).create(true).mode(MODE);
    let file = options.open(rt, trial.as_str())?;
    drop(file);
    fs::remove_file(rt, trial.as_str())
}

/// A folder of the file system: jobs as `job-NNNNNNNNNN`, by numbers of its own, and a hidden file with the number of the job
/// that is printed.
#[derive(Drop)]
pub struct FileFolder<'a, R: Files<File = File> + Log> {
    rt: &'a R,
    alloc: Global,
    printer: u32,
    path: String,
    next: u64,
    hidden: String,
    draft: Option<File>,
    is_kept: bool,
    cause: Option<Error>,
}

impl<'a, R: Files<File = File> + Log> FileFolder<'a, R> {
    /// The folder at this path, for the printer of this number, whose next file gets the number `next`.
    pub fn new(rt: &'a R, alloc: Global, printer: u32, path: String, next: u64) -> FileFolder<'a, R>
        ensures cause { result.cause ≡ None }
        ensures is_kept { result.is_kept ≡ false }
    {
        FileFolder {
            rt,
            alloc,
            printer,
            path,
            next,
            hidden: String::new(alloc),
            draft: None,
            is_kept: false,
            cause: None,
        }
    }

    /// Keeps why a call failed.
    fn fail(&mut self, cause: Error) -> FolderFault
        ensures cause { self.new.cause ≡ Some cause }
        ensures is_kept { self.new.is_kept ≡ self.old.is_kept }
    {
        self.cause = Some(cause);
        FolderFault
    }

    /// The path of the hidden file for a job, after this many that are taken: a server that was killed may have left one for a
    /// job of the same number.
    fn hidden_path(&self, job: u64, taken: u32) -> Result<String, AllocError> {
        let path = &self.path;
        if taken == 0 {
            return format!(in self.alloc; "{path}/.{JOB_FILE}{job}");
        }
        format!(in self.alloc; "{path}/.{JOB_FILE}{job}-{taken}")
    }

    /// Makes the hidden file for a job. AlreadyExists where each of the names that are tried is taken.
    fn make_hidden(&mut self, job: u64) -> io::Result<File> {
        let mut options = OpenOptions::new();
        options.write(true).create_new(true).mode(MODE);
        for taken in 0..TRIES {
            self.hidden = self.hidden_path(job, taken)?;
            match options.open(self.rt, self.hidden.as_str()) {
                Err(error) if error.kind() == ErrorKind::AlreadyExists => {}
                made => return made,
            }
        }
        Err(Error::new(
            ErrorKind::AlreadyExists,
            "all names for a hidden file are taken",
        ))
    }

    /// The number of the next job's file. It is spent, whatever becomes of the job: so the account says of each job that was printed
    /// here which file it is.
    fn take_number(&mut self) -> u64
        ensures cause { self.new.cause ≡ self.old.cause }
        ensures is_kept { self.new.is_kept ≡ self.old.is_kept }
    {
        let number = self.next;
        self.next = number.saturating_add(1);
        number
    }

    /// Gives the hidden file the next number, and answers it. AlreadyExists where a file has that.
    fn link(&mut self) -> io::Result<u64> {
        let number = self.take_number();
        let name = JobFileName { number };
        let path = format!(in self.alloc; "{}/{name}", self.path)?;
        // A link, since a rename would write over a file that has the name.
        fs::hard_link(self.rt, self.hidden.as_str(), path.as_str())?;
        Ok(number)
    }

    /// Removes the hidden file's name.
    fn unlink(&self) {
        if let Err(error) = fs::remove_file(self.rt, self.hidden.as_str()) {
            let FileFolder {
                printer,
                hidden,
                ..
            } = self;
            warn!(self.rt; "printer {printer}: {hidden} can't be removed: {error}");
        }
    }

    /// Tells that the hidden file stays, with a whole job in it.
    fn tell_left(&self) {
        let FileFolder {
            printer,
            hidden,
            ..
        } = self;
        warn!(self.rt; "printer {printer}: {hidden} stays: the job in it got no file of its own");
    }

    /// Gives the hidden file a number, and writes the folder's names to the disk.
    fn give_number(&mut self) -> io::Result<u64> {
        let number = match self.link() {
            Ok(number) => number,
            Err(error) => {
                self.tell_left();
                return Err(error);
            }
        };
        self.unlink();
        fs::open(self.rt, self.path.as_str())?.sync_all()?;
        Ok(number)
    }
}

impl<'a, R: Files<File = File> + Log> Causes for FileFolder<'a, R> {
    ghost why = { λ folder. folder.cause };

    fn cause(&self) -> Option<Error> {
        self.cause
    }
}

impl<'a, R: Files<File = File> + Log> PrinterFolder for FileFolder<'a, R> {
    ghost files = { λ _. None };

    ghost draft = { λ _. None };

    ghost is_kept = { λ folder. folder.is_kept };

    fn begin(&mut self, job: u64) -> Result<(), FolderFault> {
        self.is_kept = false;
        match self.make_hidden(job) {
            Ok(file) => {
                self.draft = Some(file);
                Ok(())
            }
            Err(error) => Err(self.fail(error)),
        }
    }

    fn append(&mut self, octets: &[u8]) -> Result<(), FolderFault> {
        self.is_kept = false;
        let wrote = match &mut self.draft {
            Some(file) => file.write_all(octets),
            None => Err(Error::from(ErrorKind::NotFound)),
        };
        match wrote {
            Ok(()) => Ok(()),
            Err(error) => Err(self.fail(error)),
        }
    }

    fn sync(&mut self) -> Result<(), FolderFault> {
        let synced = match &self.draft {
            Some(file) => file.sync_data(),
            None => Err(Error::from(ErrorKind::NotFound)),
        };
        match synced {
            Ok(()) => {
                self.is_kept = true;
                Ok(())
            }
            Err(error) => {
                self.take_number();
                self.tell_left();
                Err(self.fail(error))
            }
        }
    }

    fn publish(&mut self) -> Result<u64, FolderFault> {
        self.draft = None;
        match self.give_number() {
            Ok(number) => Ok(number),
            Err(error) => Err(self.fail(error)),
        }
    }

    fn discard(&mut self) {
        // One that wasn't begun has no name of this job's.
        if self.draft.take().is_some() {
            self.unlink();
        }
    }
}
