//! A folder in memory, for tests.

ghost use Rattle.std.specs.Prelude.{◌≡◌, ◌++◌, Some, OnOk, OnErr, IsTrue, true, false};
ghost use Rattle.printer_sinks.specs.MemoryFiles.{memory_files};
ghost use Rattle.printer_sinks.specs.Files.{IsFree};

use crate::folder::{FolderFault, PrinterFolder};
use std::alloc::Global;
use std::mem;

/// A file that has a number.
#[derive(Drop)]
pub struct MemoryFile {
    /// The number.
    pub number: u64,
    /// The octets.
    pub octets: Vec<u8>,
}

/// A folder that keeps its files in memory, and fails at one of its calls.
#[derive(Drop)]
pub struct MemoryPrinterFolder {
    alloc: Global,
    files: Vec<MemoryFile>,
    draft: Vec<u8>,
    is_kept: bool,
    calls: u64,
    fails_at: u64,
}

impl MemoryPrinterFolder {
    /// A folder with nothing in it. Its call of that number fails, from 0.
    pub fn new(alloc: Global, fails_at: u64) -> MemoryPrinterFolder {
        MemoryPrinterFolder {
            alloc,
            files: Vec::new(alloc),
            draft: Vec::new(alloc),
            is_kept: false,
            calls: 0,
            fails_at,
        }
    }

    /// The files that have a number, the newest first.
    pub fn files(&self) -> &[MemoryFile]
        ensures { result.now ≡ self.now.files.items }
    {
        &self.files
    }

    /// Counts a call, and says whether it is the one that fails.
    fn fails(&mut self) -> bool
        ensures files { self.new.files.items ≡ self.old.files.items }
        ensures draft { self.new.draft.items ≡ self.old.draft.items }
        ensures is_kept { self.new.is_kept ≡ self.old.is_kept }
    {
        let call = self.calls;
        self.calls = self.calls.saturating_add(1);
        call == self.fails_at
    }
}

/// Whether no file has this number.
fn is_free(files: &[MemoryFile], number: u64) -> bool
    ensures { result ≡ true → IsFree number (memory_files files.now) }
{
    let mut rest = files;
    while let [file, after @ ..] = rest {
        if file.number == number {
            return false;
        }
        rest = after;
    }
    true
}

impl PrinterFolder for MemoryPrinterFolder {
    ghost files = { λ folder. Some (memory_files folder.files.items) };

    ghost draft = { λ folder. Some folder.draft.items };

    ghost is_kept = { λ folder. folder.is_kept };

    fn begin(&mut self, _job: u64) -> Result<(), FolderFault> {
        if self.fails() {
            return Err(FolderFault);
        }
        self.draft = Vec::new(self.alloc);
        self.is_kept = false;
        Ok(())
    }

    fn append(&mut self, octets: &[u8]) -> Result<(), FolderFault> {
        self.is_kept = false;
        if self.fails() || self.draft.extend_from_slice(octets).is_err() {
            return Err(FolderFault);
        }
        Ok(())
    }

    fn sync(&mut self) -> Result<(), FolderFault> {
        if self.fails() {
            return Err(FolderFault);
        }
        self.is_kept = true;
        Ok(())
    }

    fn publish(&mut self) -> Result<u64, FolderFault> {
        let number = self.files.len() as u64;
        if self.fails() || !is_free(&self.files, number) {
            return Err(FolderFault);
        }
        let octets = mem::replace(&mut self.draft, Vec::new(self.alloc));
        let file = MemoryFile { number, octets };
        if self.files.insert(0, file).is_err() {
            return Err(FolderFault);
        }
        Ok(number)
    }

    fn discard(&mut self) {
        self.draft = Vec::new(self.alloc);
    }
}
