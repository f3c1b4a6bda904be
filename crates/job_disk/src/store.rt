//! What the folder has at a start.

use crate::disk::Disk;
use crate::fault::DiskFault;
use crate::kept_file::KeptFile;
use job_files::{FileStage, KeptFileName};
use std::alloc::Global;
use std::fs::{File, Files};
use std::sync::Wait;

/// The folder as whoever feeds its jobs sees it.
#[derive(Drop)]
pub struct DiskStore<'a, R> {
    disk: &'a Disk<'a, R>,
}

impl<'a, R: Files<File = File> + Wait> DiskStore<'a, R> {
    /// What this folder has.
    pub fn new(disk: &'a Disk<'a, R>) -> DiskStore<'a, R> {
        DiskStore { disk }
    }

    /// The numbers of the files of a stage.
    fn at_stage(&self, alloc: Global, stage: FileStage) -> Result<Vec<u64>, DiskFault<'a>> {
        let names = self.disk.names().map_err(|cause| self.disk.fault(cause))?;
        let numbers = names
            .iter()
            .filter(|name| name.stage == stage)
            .map(|name| name.number)
            .collect(alloc);
        numbers.map_err(|error| self.disk.fault(error.into()))
    }

    /// The numbers of the whole files, in any order. An error where the folder can't be read, or memory is refused.
    pub fn names(&self, alloc: Global) -> Result<Vec<u64>, DiskFault<'a>> {
        self.at_stage(alloc, FileStage::Whole)
    }

    /// The numbers of the files of jobs that failed, in any order. An error as for `names`.
    pub fn failed(&self, alloc: Global) -> Result<Vec<u64>, DiskFault<'a>> {
        self.at_stage(alloc, FileStage::Failed)
    }

    /// The file of a stage of this number, to be read from its job's head on.
    fn open_at(&self, number: u64, stage: FileStage) -> Result<KeptFile, DiskFault<'a>> {
        let name = KeptFileName { number, stage };
        self.disk
            .open_file(name)
            .and_then(KeptFile::new)
            .map_err(|cause| self.disk.fault_at(name, cause))
    }

    /// The whole file of this number, to be read from its job's head on. An error where it can't be opened, or lacks its last line.
    pub fn open_job(&self, number: u64) -> Result<KeptFile, DiskFault<'a>> {
        self.open_at(number, FileStage::Whole)
    }

    /// The same, once it was read whole: an error too where it isn't as it was kept.
    pub fn open_unchanged(&self, number: u64) -> Result<KeptFile, DiskFault<'a>> {
        let stage = FileStage::Whole;
        let mut file = self.open_at(number, stage)?;
        let name = KeptFileName { number, stage };
        match file.check(self.disk.alloc) {
            Ok(()) => Ok(file),
            Err(cause) => Err(self.disk.fault_at(name, cause)),
        }
    }

    /// The file of this number of a job that has failed, to be read from its job's head on. An error as for `open_job`.
    pub fn open_failed(&self, number: u64) -> Result<KeptFile, DiskFault<'a>> {
        self.open_at(number, FileStage::Failed)
    }

    /// The file of this number of a job that is whole or has failed, to be read from its job's head on. An error where there is neither, or as
    /// for `open_job`.
    pub fn open_kept(&self, number: u64) -> Result<KeptFile, DiskFault<'a>> {
        let whole = self.open_job(number);
        if whole.is_ok() {
            return whole;
        }
        match self.open_failed(number) {
            Ok(file) => Ok(file),
            // Between the two looks a printer may have left it.
            Err(_) => self.open_job(number),
        }
    }

    /// Removes all temporary files, before a session has one in hand. An error where one can't be removed, or the folder can't be read.
    pub fn clear(&self) -> Result<(), DiskFault<'a>> {
        let names = self.disk.names().map_err(|cause| self.disk.fault(cause))?;
        for name in &names {
            if name.stage == FileStage::Temporary {
                self.disk
                    .remove(*name)
                    .map_err(|cause| self.disk.fault_at(*name, cause))?;
            }
        }
        Ok(())
    }

    /// Has the names of the folder on the disk. An error where it can't be synced.
    pub fn sync_names(&self) -> Result<(), DiskFault<'a>> {
        self.disk
            .sync_names()
            .map_err(|cause| self.disk.fault(cause))
    }
}
