//! Failed jobs that are fed again.

use crate::kept::JobFolder;
use crate::owner::{FiledJob, OwnerFault, filed_job};
use config_values::Config;
use job_disk::{AdmissionFault, DiskFault, DiskStore};
use log::Log;
use std::alloc::Global;
use std::fmt;
use std::fs::{File, Files};
use std::sync::Wait;

/// Why a failed job isn't fed again.
#[derive(Clone, Copy)]
pub enum Unsent<'a> {
    /// Its file can't be opened or renamed, or isn't there; or a whole one of its number is.
    Fault(DiskFault<'a>),
    /// The file doesn't say whose the job is.
    Unowned(OwnerFault),
    /// It was sent to a queue that isn't configured.
    NoQueue,
    /// One of its number is there already.
    Known,
    /// Memory was refused.
    Memory,
}

impl fmt::Display for Unsent<'_> {
    fn fmt<W: fmt::Write>(&self, f: &mut fmt::Formatter<W>) -> fmt::Result {
        match self {
            Unsent::Fault(fault) => write!(f, "{fault}"),
            Unsent::Unowned(why) => write!(f, "{why}"),
            Unsent::NoQueue => f.write_str("no queue has the name that it was sent to"),
            Unsent::Known => f.write_str("a job of this number is there already"),
            Unsent::Memory => f.write_str("memory was refused"),
        }
    }
}

impl From<OwnerFault> for Unsent<'_> {
    fn from(fault: OwnerFault) -> Self {
        match fault {
            OwnerFault::Memory => Unsent::Memory,
            _ => Unsent::Unowned(fault),
        }
    }
}

impl From<AdmissionFault> for Unsent<'_> {
    fn from(fault: AdmissionFault) -> Self {
        match fault {
            AdmissionFault::Known => Unsent::Known,
            AdmissionFault::NoQueue => Unsent::NoQueue,
            AdmissionFault::Memory => Unsent::Memory,
        }
    }
}

impl<'a, R: Files<File = File> + Log + Wait> JobFolder<'a, R> {
    /// The failed job in this file, as the file says whose it is, and the place of its queue.
    fn failed_job(
        &self,
        alloc: Global,
        config: &Config,
        number: u64,
    ) -> Result<(FiledJob, usize), Unsent<'_>> {
        let file = DiskStore::new(&self.disk).open_failed(number);
        let mut file = file.map_err(Unsent::Fault)?;
        let job = filed_job(alloc, &mut file, self.page_size)?;
        let queue = config.queue_named(job.owner.queue.as_slice());
        match queue.and_then(|queue| queue.checked_sub(1)) {
            Some(place) => Ok((job, place as usize)),
            None => Err(Unsent::NoQueue),
        }
    }

    /// Has a failed job fed again, by the number of its file, and answers whose it is.
    ///
    /// An error where it can't be: nothing is renamed then, and no count changes, but where the folder can't be synced, or memory is refused for its
    /// place in its queue's line: then it is fed after the next start.
    pub fn resend(
        &self,
        rt: &R,
        alloc: Global,
        config: &Config,
        number: u64,
    ) -> Result<FiledJob, Unsent<'_>> {
        let (job, place) = self.failed_job(alloc, config, number)?;
        if self.disk.is_known(number) {
            return Err(Unsent::Known);
        }
        self.disk.resend(number).map_err(Unsent::Fault)?;
        let entered = self
            .disk
            .lines()
            .add_found(place, number, job.owner.sender, job.size);
        entered?;
        self.ring(rt);
        Ok(job)
    }
}
