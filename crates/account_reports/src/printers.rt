//! Where a printer's octets are read again.

ghost use Rattle.std.specs.Prelude.{◌≡◌, ◌≤◌, IfSome, None, length};

use printed_pages::PrintedOctets;
use program_edge::JOB_FILE;
use std::alloc::Global;
use std::fs::{File, Files, OpenOptions};
use std::io::{ErrorKind, Read, Seek, SeekFrom};
use std::{fs, io, str};

/// How often a read that was interrupted is tried.
const TRIES: u32 = 1_000;

/// A file that is read again.
#[derive(Drop)]
pub(crate) struct PrintedFile {
    file: File,
    /// At which octet the next read begins, where that is known.
    at: Option<u64>,
}

impl PrintedFile {
    /// The file at a path. An error where it can't be opened, or is none: a pipe in its place would have its opener wait.
    pub(crate) fn open<R: Files<File = File>>(rt: &R, path: &str) -> io::Result<PrintedFile> {
        if !fs::metadata(rt, path)?.is_file() {
            return Err(io::Error::new(ErrorKind::Other, "it is no file"));
        }
        let file = OpenOptions::new().read(true).open(rt, path)?;
        Ok(PrintedFile { file, at: Some(0) })
    }

    /// How many octets it has. None where that can't be told.
    pub(crate) fn length(&mut self) -> Option<u64> {
        self.at = None;
        self.file.seek(SeekFrom::End(0)).ok()
    }
}

impl PrintedOctets for PrintedFile {
    ghost octets = { λ _. None };

    ghost rest = { λ _. None };

    fn go_to(&mut self, at: u64) -> bool {
        if self.at == Some(at) {
            return true;
        }
        self.at = self.file.seek(SeekFrom::Start(at)).ok();
        self.at == Some(at)
    }

    fn read(&mut self, buffer: &mut [u8]) -> Option<usize> {
        let at = self.at.take()?;
        for _ in 0..TRIES {
            match self.file.read(buffer) {
                Ok(count) => {
                    self.at = at.checked_add(count as u64);
                    return Some(count);
                }
                Err(error) if error.kind() == ErrorKind::Interrupted => {}
                Err(_) => return None,
            }
        }
        None
    }
}

/// The number of a job's file of this name: `job-` and ten digits or more. None of any other name.
fn job_number(name: &[u8]) -> Option<u64> {
    let digits = name.strip_prefix(JOB_FILE.as_bytes())?;
    if digits.len() < 10 || !digits.iter().all(|octet| octet.is_ascii_digit()) {
        return None;
    }
    str::from_utf8(digits).ok()?.parse().ok()
}

/// The numbers of the jobs' files in the folder at a path, rising. An error where it can't be read, or memory is refused.
pub(crate) fn job_numbers<R: Files>(rt: &R, alloc: Global, path: &str) -> io::Result<Vec<u64>> {
    let names = server_folder::names(rt, alloc, path)?;
    let mut numbers = Vec::new(alloc);
    for name in names.split(|octet| *octet == 0) {
        if let Some(number) = job_number(name) {
            numbers.push(number)?;
        }
    }
    numbers.sort_unstable();
    Ok(numbers)
}
