//! The folder in which jobs are kept until they are printed, as a server's threads share it.

ghost use Rattle.std.specs.Prelude.{◌≡◌, IfErr};
ghost use Rattle.program_edge.specs.Openings.{IsUnopened};
ghost use Rattle.program_edge.specs.declared.opening.StartPart.{StartPart};
ghost use Rattle.program_edge.specs.declared.opening.StartPart.TheVariants.{Spool};
ghost use Rattle.server_folders.specs.Ended.{aftermath_text};

use crate::holds::{read_holds, write_holds};
use crate::owner::{FiledJob, filed_job};
use crate::recounting::Recounted;
use crate::refusal::refused;
use config_values::Config;
use job_disk::{AdmissionFault, Disk, DiskFault, DiskRoom, DiskStore, FileRemoval, StoredJobs};
use job_files::{JobEnd, NUMBERS_END};
use job_store::recover;
use log::{Log, warn};
use program_edge::{StartFault, StartPart};
use std::alloc::Global;
use std::collections::VecDeque;
use std::fs::{File, Files};
use std::rt::Clock;
use std::sync::{Condvar, Mutex, Wait};
use std::time::Duration;
use std::{io, mem};

/// What becomes of a job that has ended, and whose file couldn't be taken away or renamed: of one whose file was gone nothing.
pub fn aftermath(was_gone: bool) -> &'static str
    ensures { result.now ≡ aftermath_text was_gone }
{
    if was_gone {
        "somebody took the job's file away"
    } else {
        "the job is printed again after the next start"
    }
}

/// What is known of a folder beside its files.
///
/// ```text
///   a start ---> reading ---> read: jobs may go through the spool
/// ```
#[derive(Drop)]
pub(crate) struct FolderState {
    /// The numbers of the files that a start found and that weren't read yet, in order.
    found: VecDeque<u64>,
    /// Which queues are held, by their places.
    held: Vec<bool>,
    /// The numbers of files whose jobs were removed while they were being fed.
    removed: Vec<u64>,
    /// Something changed by which a job may have to be fed.
    is_rung: bool,
    /// When the folder was read last to count what it has.
    pub(crate) recounted: Option<Recounted>,
}

/// The numbers of the whole files that a start finds, in order; what was coming is removed. Else why they aren't found, where the folder says.
fn found_in<'d, R: Files<File = File> + Wait>(
    alloc: Global,
    disk: &'d Disk<'d, R>,
) -> Result<Vec<u64>, Option<DiskFault<'d>>> {
    let mut stored = StoredJobs::new(disk);
    match recover(alloc, &mut stored) {
        Ok(found) => Ok(found.jobs),
        Err(_) => Err(stored.take_fault()),
    }
}

/// Tells which files are named as jobs' files are, but with numbers that these can't have.
fn tell_beyond<R: Files<File = File> + Log + Wait>(rt: &R, path: &str, disk: &Disk<'_, R>) {
    let Ok(names) = disk.names_beyond() else {
        return;
    };
    for name in &names {
        warn!(rt; "{path}/{name} is no job, and stays: its number is {NUMBERS_END} or greater");
    }
}

/// The folder in which jobs are kept.
#[derive(Drop)]
pub struct JobFolder<'a, R> {
    pub disk: Disk<'a, R>,
    pub(crate) path: &'a str,
    /// How many octets a page has.
    pub(crate) page_size: u32,
    pub(crate) state: Mutex<FolderState>,
    bell: Condvar,
}

impl<'a, R: Files<File = File> + Log + Wait> JobFolder<'a, R> {
    /// Opens the folder at a path, which is made where nothing is there. What was coming when the server before ended is removed. Whose
    /// the whole jobs are isn't read yet: until it is, each new job waits behind them.
    ///
    /// Opening where it can't be used, or another server has it, of which the log is told why too; Memory.
    pub fn open(
        rt: &'a R,
        alloc: Global,
        path: &'a str,
        config: &Config,
    ) -> Result<JobFolder<'a, R>, StartFault>
        ensures { IfErr result (IsUnopened (λ (part : StartPart). part ≡ Spool)) }
    {
        let room = DiskRoom {
            jobs: config.max_jobs() as usize,
            queues: config.queues().len(),
            page_size: config.page_size(),
        };
        let disk = match Disk::open(rt, alloc, path, room) {
            Ok(disk) => disk,
            Err(error) => return Err(refused(rt, alloc, StartPart::Spool, path, &error)),
        };
        let numbers = match found_in(alloc, &disk) {
            Ok(numbers) => numbers,
            Err(Some(fault)) => {
                let why = fault.in_folder();
                return Err(refused(rt, alloc, StartPart::Spool, path, &why));
            }
            Err(None) => {
                let why = "its jobs can't be found";
                return Err(refused(rt, alloc, StartPart::Spool, path, &why));
            }
        };
        tell_beyond(rt, path, &disk);
        let mut found = VecDeque::new(alloc);
        for number in numbers {
            found.push_back(number)?;
        }
        let held = read_holds(rt, alloc, path, config)?;
        Ok(JobFolder {
            disk,
            path,
            page_size: config.page_size(),
            state: Mutex::new(FolderState {
                found,
                held,
                removed: Vec::new(alloc),
                is_rung: false,
                recounted: None,
            }),
            bell: Condvar::new(),
        })
    }

    /// The job in this file, of one that is whole or has failed, as the file says whose it is.
    ///
    /// An error where there is no such file, or it can't be opened; none where it doesn't say that, of which the log is told.
    pub fn filed(
        &self,
        rt: &R,
        alloc: Global,
        number: u64,
    ) -> Result<Option<FiledJob>, DiskFault<'_>> {
        let mut file = DiskStore::new(&self.disk).open_kept(number)?;
        match filed_job(alloc, &mut file, self.page_size) {
            Ok(job) => Ok(Some(job)),
            Err(why) => {
                warn!(rt; "it isn't known whose the job in file {number} is: {why}");
                Ok(None)
            }
        }
    }

    /// The numbers of the files whose jobs have failed, in order. An error where the folder can't be read, or memory is refused.
    pub fn failed(&self, alloc: Global) -> Result<Vec<u64>, DiskFault<'_>> {
        let mut numbers = DiskStore::new(&self.disk).failed(alloc)?;
        numbers.sort_unstable();
        Ok(numbers)
    }

    /// The job in this file, which is whole, waits to be fed, by its number. False where the file isn't that of a job for one of this
    /// server's queues, of which the log is told.
    ///
    /// Memory where that is refused; Known where the job stands in a line already.
    pub fn enter(
        &self,
        rt: &R,
        alloc: Global,
        config: &Config,
        number: u64,
    ) -> Result<bool, AdmissionFault> {
        let job = match self.filed(rt, alloc, number) {
            Ok(Some(job)) => job,
            Ok(None) => return Ok(false),
            Err(fault) => {
                warn!(rt; "{fault}: the job isn't printed");
                return Ok(false);
            }
        };
        let queue = config.queue_named(job.owner.queue.as_slice());
        let Some(place) = queue.and_then(|queue| queue.checked_sub(1)) else {
            warn!(rt; "the job in file {number}.job isn't printed, and stays where it is: no queue has the name that it was sent to");
            return Ok(false);
        };
        let entered = self
            .disk
            .lines()
            .add_found(place as usize, number, job.owner.sender, job.size);
        entered?;
        self.ring(rt);
        Ok(true)
    }

    /// Reads whose one more of the jobs is that the start found. False once all were.
    pub fn read_one(&self, rt: &R, alloc: Global, config: &Config) -> bool {
        let first = self.state.lock(rt).found.front().copied();
        let Some(number) = first else {
            return false;
        };
        if self.enter(rt, alloc, config, number).is_err() {
            warn!(rt; "the job in file {number}.job is printed after the next start: memory was refused");
        }
        // Only now, so that no job goes through the spool before it is known which ones wait.
        self.state.lock(rt).found.pop_front();
        true
    }

    /// Whether all jobs that the start found were read.
    pub fn is_read(&self, rt: &R) -> bool {
        self.state.lock(rt).found.is_empty()
    }

    /// Whether the queue at this place is held.
    pub fn is_held(&self, rt: &R, place: usize) -> bool {
        let state = self.state.lock(rt);
        state.held.get(place).copied().unwrap_or(false)
    }

    /// The queue at this place is held from now on, or isn't any more, and the folder says so to the next server.
    ///
    /// An error where the folder can't be told that, or memory is refused: it lasts until this server ends then.
    pub fn set_held(
        &self,
        rt: &R,
        alloc: Global,
        config: &Config,
        place: usize,
        is_held: bool,
    ) -> io::Result<()> {
        let mut state = self.state.lock(rt);
        if let Some(held) = state.held.get_mut(place) {
            *held = is_held;
        }
        let written = write_holds(rt, alloc, self.path, config, state.held.as_slice());
        drop(state);
        self.ring(rt);
        written
    }

    /// Has the job in this file go, which waits to be fed or has failed: its file is removed, and nobody waits for it any more.
    ///
    /// An error where it doesn't wait and no file of it has failed, or the file can't be removed. Nothing changes then.
    pub fn let_go(&self, number: u64) -> Result<FileRemoval, DiskFault<'a>> {
        self.disk.drop_kept(number)
    }

    /// Has the job in this file go, which waits to be fed, has failed, or is being fed just now: then it goes as soon as that has ended, by
    /// whoever takes `removed`.
    ///
    /// An error as for `let_go`. IsElsewhere where the spool has it, or it is coming; or memory is refused.
    pub fn remove(&self, rt: &R, number: u64) -> Result<FileRemoval, DiskFault<'a>> {
        if self.let_go(number)? == FileRemoval::Gone {
            return Ok(FileRemoval::Gone);
        }
        if !self.disk.is_fed(number) || self.state.lock(rt).removed.push(number).is_err() {
            return Ok(FileRemoval::IsElsewhere);
        }
        Ok(FileRemoval::Gone)
    }

    /// The numbers of files whose jobs were removed while they were being fed: each is told once.
    pub fn take_removed(&self, rt: &R, alloc: Global) -> Vec<u64> {
        let mut state = self.state.lock(rt);
        mem::replace(&mut state.removed, Vec::new(alloc))
    }

    /// How many of the jobs that the start found aren't read yet.
    pub(crate) fn unread(&self, rt: &R) -> usize {
        self.state.lock(rt).found.len()
    }

    /// Has the file of a job that has ended taken away, or renamed. The log is told where that fails.
    pub fn end(&self, rt: &R, job: u64, end: JobEnd) {
        if let Err(fault) = self.disk.end(job, end) {
            let becomes = aftermath(fault.is_absence());
            warn!(rt; "{fault}: {becomes}");
        }
        self.ring(rt);
    }

    /// Wakes who feeds: something changed by which a job may have to be fed.
    pub fn ring(&self, rt: &R) {
        self.state.lock(rt).is_rung = true;
        self.bell.notify_all();
    }
}

impl<R: Clock + Wait> JobFolder<'_, R> {
    /// Waits until it is rung, for N milliseconds at most.
    pub fn await_ring(&self, rt: &R, limit_ms: u64) {
        let limit = Duration::from_millis(limit_ms);
        let state = self.state.lock(rt);
        let (mut state, _) = self
            .bell
            .wait_timeout_while(rt, state, limit, |state| !state.is_rung);
        state.is_rung = false;
    }
}
