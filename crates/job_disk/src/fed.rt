//! A job of the folder that is fed.

ghost use Rattle.std.specs.Prelude.{◌≡◌, None, is_none};

use crate::disk::Disk;
use crate::fault::DiskFault;
use kept_jobs::{Folder, KeepError};
use std::fs::{File, Files};
use std::sync::Wait;

/// The hand of whoever feeds a job that is kept already: nothing is written, and the job's file is the one that is fed. It tells nothing.
#[derive(Drop)]
pub struct FedFolder<'a, R> {
    disk: &'a Disk<'a, R>,
    /// The number of the file that is fed, until its job is passed on.
    file: Option<u64>,
    fault: Option<DiskFault<'a>>,
}

impl<'a, R: Files<File = File> + Wait> FedFolder<'a, R> {
    /// A hand with nothing in it.
    pub fn new(disk: &'a Disk<'a, R>) -> FedFolder<'a, R> {
        FedFolder {
            disk,
            file: None,
            fault: None,
        }
    }

    /// The job of this file is fed.
    pub fn take(&mut self, file: u64)
        ensures { self.new.file ≡ Some file }
    {
        self.file = Some(file);
    }

    /// Whether the job of the file has been passed on.
    pub fn is_passed(&self) -> bool
        ensures { result ≡ is_none self.now.file }
    {
        self.file.is_none()
    }

    /// Takes out why a file wasn't taken away whose job had ended.
    pub fn take_fault(&mut self) -> Option<DiskFault<'a>> {
        self.fault.take()
    }
}

impl<R: Files<File = File> + Wait> Folder for FedFolder<'_, R> {
    ghost seen = { λ _. None };

    ghost may_hold = { λ _ octets. ⊥ };

    ghost may_leave = { λ _ left. ⊥ };

    ghost moment = { λ _. 0 };

    ghost left_since = { λ _ t left. ⊥ };

    ghost may_lack = { λ _ octets. ⊥ };

    ghost faults = { λ _. 0 };

    fn create(&mut self) -> Result<(), KeepError> {
        Ok(())
    }

    fn append(&mut self, _octets: &[u8], _digest: Option<[u8; 32]>) -> Result<(), KeepError> {
        Ok(())
    }

    fn sync(&mut self) -> Result<(), KeepError> {
        Ok(())
    }

    fn publish(&mut self) -> Result<(), KeepError> {
        Ok(())
    }

    fn sync_names(&mut self) -> Result<(), KeepError> {
        Ok(())
    }

    fn pass(&mut self, job: u64) {
        let Some(file) = self.file.take() else {
            return;
        };
        if let Err(fault) = self.disk.pass(job, file) {
            self.fault = Some(fault);
        }
    }

    /// The file stays, and whoever feeds it sees that its job wasn't passed on.
    fn leave(&mut self) {}

    fn discard(&mut self) {}

    ghost counts_now = { λ _ t c le now. now };

    ghost only_now = { λ _ c left. left };
}
