//! A pipe in the place of a printer's file.

use crate::place::path;
use libc::{O_CLOEXEC, pipe2};
use os::FromRawFd;
use std::alloc::Global;
use std::fs::{File, Files};
use std::io::Read;
use std::os::fd::{AsRawFd, OwnedFd};
use std::os::unix::fs::symlink;

/// A pipe that takes nothing more until it is read, and that nobody has open for reading.
#[derive(Drop)]
pub struct Pipe {
    writer: OwnedFd,
    // How many octets are in it.
    filled: usize,
}

impl Pipe {
    /// One that is full. None where the system gives none.
    pub fn full() -> Option<Pipe> {
        let mut ends = [-1; 2];
        let made = unsafe { pipe2(&mut ends, O_CLOEXEC) };
        let (reading, writing) = (ends[0], ends[1]);
        if made != 0 || reading < 0 || writing < 0 {
            return None;
        }
        let reader = unsafe { OwnedFd::from_raw_fd(reading) };
        let writer = unsafe { OwnedFd::from_raw_fd(writing) };
        os::set_nonblocking(writing, true);
        let mut filled = 0usize;
        for _ in 0..u16::MAX {
            match usize::try_from(libc::write(writing, &[0; 512])) {
                Ok(count) => filled = filled.saturating_add(count),
                Err(_) => break,
            }
        }
        drop(reader);
        Some(Pipe { writer, filled })
    }

    /// The path by which it is opened.
    fn path(&self, alloc: Global) -> Option<String> {
        format!(in alloc; "/proc/self/fd/{}", self.writer.as_raw_fd()).ok()
    }

    /// Reads so many octets. None where fewer come.
    pub fn read<R: AllocGlobal + Files<File = File>>(
        &self,
        rt: &R,
        count: usize,
    ) -> Option<Vec<u8>> {
        let path = self.path(rt.alloc())?;
        let mut file = File::open(rt, path.as_str()).ok()?;
        let mut octets = vec![in rt.alloc(); 0u8; count].ok()?;
        file.read_exact(octets.as_mut_slice()).ok()?;
        Some(octets)
    }

    /// Reads what it was filled with, so that it takes what is written to it. None where less comes.
    pub fn empty<R: AllocGlobal + Files<File = File>>(&self, rt: &R) -> Option<()> {
        self.read(rt, self.filled)?;
        Some(())
    }

    /// Has a printer of this directory write to it. None where that can't be.
    pub fn stand_for_printer<R: AllocGlobal + Files<File = File>>(
        &self,
        rt: &R,
        out: &str,
    ) -> Option<()> {
        let (from, to) = (self.path(rt.alloc())?, path(rt.alloc(), out, 1)?);
        symlink(rt, from.as_str(), to.as_str()).ok()
    }
}
