//! A printer's file as the system has it: a file, a device or a pipe.
//!
//! It is opened once, at the server's start and before anything is listened on, and is made where it isn't there. What is in a pipe
//! counts as printed. Nothing is written between jobs.

use libc::net::{POLLIN, POLLOUT, poll};
use libc::types::pollfd;
use os::set_nonblocking;
use sink_devices::Errand;
use std::fs::{File, FileType, Files, OpenOptions, TryLockError};
use std::io::{Error, ErrorKind, Write};
use std::os::fd::{AsRawFd, RawFd};
use std::os::unix::fs::FileTypeExt;
use std::{fs, io};

/// The longest time for which one wait for a pipe or a device lasts, in milliseconds. Between two of them the server's end is looked
/// at.
const TURN_MS: i32 = 1_000;

/// A printer's file.
#[derive(Drop)]
pub struct Outlet {
    pub(crate) file: File,
    is_pipe: bool,
    /// It is a file of a disk, or will be.
    is_regular: bool,
}

/// Whether writes to such a file may wait for somebody.
fn may_wait(kind: FileType) -> bool {
    kind.is_fifo() || kind.is_char_device()
}

impl Outlet {
    /// Opens a printer's file at its end. A pipe is opened for reading too: so it doesn't wait for a reader, and one that ends and is
    /// started again stops no printer.
    pub(crate) fn open<R: Files<File = File>>(rt: &R, path: &str) -> io::Result<Outlet> {
        let kind = fs::metadata(rt, path).map(|metadata| metadata.file_type());
        let is_pipe = kind.is_ok_and(|kind| kind.is_fifo());
        let is_regular = kind.map_or(true, |kind| kind.is_file());
        let mut options = OpenOptions::new();
        options.read(is_pipe).append(true).create(true);
        let file = options.open(rt, path)?;
        if kind.is_ok_and(may_wait) {
            set_nonblocking(file.as_raw_fd(), true);
        }
        Ok(Outlet {
            file,
            is_pipe,
            is_regular,
        })
    }

    /// Whether another server, or another printer, has the same file of a disk open as its printer's. Who asks has it locked from then on, as
    /// long as it is open: so the next one that asks is told. Where the disk knows no locks nobody is.
    pub(crate) fn is_shared(&self) -> bool {
        self.is_regular && matches!(self.file.try_lock(), Err(TryLockError::WouldBlock))
    }

    /// The same file, where it is one of a disk: it can be synced.
    pub(crate) fn twin(&self) -> Option<File> {
        if self.is_regular {
            self.file.try_clone().ok()
        } else {
            None
        }
    }

    /// How many octets it has, where it is one of a disk.
    pub(crate) fn length(&self) -> Option<u64> {
        let metadata = self.file.metadata().ok()?;
        metadata.is_file().then_some(metadata.len())
    }

    /// The same file, where it is a pipe: whether its reader has taken what was written can be asked. None where the system gives no
    /// second number for it.
    pub(crate) fn pipe(&self) -> Option<File> {
        if self.is_pipe {
            self.file.try_clone().ok()
        } else {
            None
        }
    }
}

/// Whether the system tells one of these of a descriptor, asked for `limit_ms` milliseconds at most. False where it doesn't answer.
fn is_told(descriptor: RawFd, events: i16, limit_ms: i32) -> bool {
    let mut asked = [pollfd {
        fd: descriptor,
        events,
        revents: 0,
    }];
    poll(&mut asked, limit_ms) > 0 && asked[0].revents & events != 0
}

/// Whether a pipe has octets that its reader hasn't taken.
pub fn has_unread(pipe: &File) -> bool {
    is_told(pipe.as_raw_fd(), POLLIN, 0)
}

/// A printer's file, of which a write waits while the printer takes nothing, until the server waits for nothing any more. A job of which
/// no octet has gone is offered to the server meanwhile, which may put it back.
#[derive(Drop)]
pub struct PatientFile<'a, Q: Errand> {
    printer: u32,
    file: File,
    errand: &'a Q,
    /// The job whose octets are written.
    job: u64,
    /// Whether an octet of it has gone.
    is_begun: bool,
}

impl<'a, Q: Errand> PatientFile<'a, Q> {
    /// The file of the printer of this number, which asks this while it waits.
    pub(crate) fn new(printer: u32, file: File, errand: &'a Q) -> PatientFile<'a, Q> {
        PatientFile {
            printer,
            file,
            errand,
            job: 0,
            is_begun: false,
        }
    }

    /// Octets of this job are written from now on.
    pub(crate) fn come_to(&mut self, job: u64) {
        if job != self.job {
            self.job = job;
            self.is_begun = false;
        }
    }

    /// Waits for a second at most until the printer takes octets, which it hasn't for this many seconds. False where the server has put the
    /// job back meanwhile.
    fn waits_on(&self, seconds: u64) -> bool {
        if self.is_begun {
            is_told(self.file.as_raw_fd(), POLLOUT, TURN_MS);
            return true;
        }
        let tried_ms = seconds.saturating_mul(1_000);
        self.errand.offer(self.printer, self.job, tried_ms);
        is_told(self.file.as_raw_fd(), POLLOUT, TURN_MS);
        // From here on octets of it may go.
        !self.errand.withdraw(self.printer)
    }
}

impl<Q: Errand> Write for PatientFile<'_, Q> {
    fn write(&mut self, octets: &[u8]) -> io::Result<usize> {
        for turn in 0..u64::MAX {
            match self.file.write(octets) {
                Err(error) if error.kind() == ErrorKind::WouldBlock => {
                    if self.errand.is_cut_off() {
                        break;
                    }
                    self.errand.note_halt(self.printer);
                    if !self.waits_on(turn) {
                        break;
                    }
                }
                written => {
                    if turn != 0 {
                        self.errand.note_taken(self.printer);
                    }
                    self.is_begun |= written.is_ok();
                    return written;
                }
            }
        }
        Err(Error::from(ErrorKind::TimedOut))
    }

    fn flush(&mut self) -> io::Result<()> {
        self.file.flush()
    }
}
