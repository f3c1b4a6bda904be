//! The folder of kept jobs as a start sees it.

ghost use Rattle.std.specs.Prelude.{None};
ghost use Rattle.kept_jobs.specs.Folder.{HasCause};

use crate::disk::Disk;
use crate::fault::DiskFault;
use crate::kept_file::KeptFile;
use crate::store::DiskStore;
use job_store::{Names, Store};
use kept_jobs::KeepError;
use std::alloc::Global;
use std::fs::{File, Files};
use std::io::ErrorKind;
use std::sync::Wait;

/// The whole files of a folder, and why a call there failed last. It tells nothing, as the folder doesn't.
#[derive(Drop)]
pub struct StoredJobs<'a, R> {
    store: DiskStore<'a, R>,
    faults: u64,
    fault: Option<DiskFault<'a>>,
}

impl<'a, R: Files<File = File> + Wait> StoredJobs<'a, R> {
    /// What this folder has.
    pub fn new(disk: &'a Disk<'a, R>) -> StoredJobs<'a, R> {
        StoredJobs {
            store: DiskStore::new(disk),
            faults: 0,
            fault: None,
        }
    }

    /// Takes out why the folder failed last, if it has since this was asked before.
    pub fn take_fault(&mut self) -> Option<DiskFault<'a>> {
        self.fault.take()
    }

    /// Fails where the call did, and keeps why.
    fn checked<T: Drop>(&mut self, answer: Result<T, DiskFault<'a>>) -> Result<T, KeepError>
        ensures { HasCause self.old.faults self.new.faults result }
    {
        let fault = match answer {
            Ok(value) => return Ok(value),
            Err(fault) => fault,
        };
        self.fault = Some(fault);
        match self.faults.checked_add(1) {
            Some(faults) => {
                self.faults = faults;
                Err(KeepError::Failed)
            }
            None => Err(KeepError::Memory),
        }
    }
}

impl<R: Files<File = File> + Wait> Store for StoredJobs<'_, R> {
    type Job = KeptFile;

    ghost files = { None };

    ghost may_leave = { λ _ n left. ⊥ };

    ghost moment = { λ _. 0 };

    ghost left_since = { λ _ n t left. ⊥ };

    ghost faults = { λ store. store.faults };

    fn sync_names(&mut self) -> Result<(), KeepError> {
        let answer = self.store.sync_names();
        self.checked(answer)
    }

    fn clear_partials(&mut self) -> Result<(), KeepError> {
        let answer = self.store.clear();
        self.checked(answer)
    }

    fn names(&mut self, alloc: Global) -> Result<Names, KeepError> {
        let jobs = self.store.names(alloc);
        let jobs = self.checked(jobs)?;
        let failed = self.store.failed(alloc);
        let failed = self.checked(failed)?;
        Ok(Names { jobs, failed })
    }

    /// A file that isn't as it was kept isn't opened.
    fn open(&mut self, job: u64) -> Result<Option<KeptFile>, KeepError> {
        match self.store.open_unchanged(job) {
            Err(fault) if fault.cause.kind() == ErrorKind::NotFound => Ok(None),
            answer => Ok(Some(self.checked(answer)?)),
        }
    }

    ghost counts_now = { λ _ n t c le now. now };

    ghost only_now = { λ _ n c left. left };
}
