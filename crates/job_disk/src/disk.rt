//! A folder of jobs, which the threads of a server share.

ghost use Rattle.std.specs.Prelude.{◌≡◌};
ghost use Rattle.job_disk.specs.Ends.{stage_after};

use crate::ended_files::{EndedFiles, Sweep};
use crate::fault::DiskFault;
use crate::jobs::FolderJobs;
use crate::lines::{FileRemoval, HeldLines};
use crate::listing::{names_beyond, names_in};
use crate::syncs::{SyncTold, Syncs};
use job_files::{FileStage, JobEnd, KeptFileName};
use server_folder::{FILE_MODE, FolderError, FolderHold, FolderUse};
use std::alloc::{AllocError, Global};
use std::fs::{File, Files, OpenOptions};
use std::os::unix::fs::OpenOptionsExt;
use std::sync::{Condvar, Mutex, MutexGuard, Wait};
use std::{fs, io};

/// What is said of what stands in the place of a file and is none.
pub(crate) const NO_FILE: &str = "it is no file";

/// What there is room for in memory, of a folder's jobs, and how large their pages are.
#[derive(Clone, Copy, Debug, PartialEq, Eq)]
pub struct DiskRoom {
    /// How many jobs may be passed on and not have ended.
    pub jobs: usize,
    pub queues: usize,
    /// How many octets a page has.
    pub page_size: u32,
}

/// What becomes of the whole file of a job that ended so: the stage at which it stays. None where it goes.
fn stage_after(end: JobEnd) -> Option<FileStage>
    ensures { result ≡ stage_after end }
{
    match end {
        JobEnd::Done | JobEnd::Removed => None,
        JobEnd::Failed => Some(FileStage::Failed),
    }
}

/// A folder of jobs, which sessions, printers and whoever feeds its jobs share. One server has it at a time.
#[derive(Drop)]
pub struct Disk<'a, R> {
    rt: &'a R,
    pub(crate) alloc: Global,
    path: &'a str,
    /// How many octets a page has of the jobs that come.
    pub(crate) page_size: u32,
    folder: File,
    // Held while the server has the folder.
    _hold: FolderHold,
    standing: Mutex<FolderJobs>,
    syncs: Mutex<Syncs>,
    ended: Condvar,
    // The files of jobs that have ended, which are to be removed.
    swept: Mutex<EndedFiles>,
    broom: Condvar,
}

impl<'a, R: Files<File = File> + Wait> Disk<'a, R> {
    /// The folder at this path, which is made where nothing is there, with such room.
    ///
    /// # Errors
    ///
    /// `InUse` where another server has it; `Failed` where it can't be made, opened or read, or memory is refused.
    pub fn open(
        rt: &'a R,
        alloc: Global,
        path: &'a str,
        room: DiskRoom,
    ) -> Result<Disk<'a, R>, FolderError> {
        let hold = server_folder::take(rt, alloc, FolderUse::Jobs, path)?;
        let names = names_in(rt, alloc, path)?;
        let standing = FolderJobs::new(alloc, names.as_slice(), room.jobs, room.queues);
        let standing = standing.map_err(io::Error::from)?;
        Ok(Disk {
            rt,
            alloc,
            path,
            page_size: room.page_size,
            folder: File::open(rt, path)?,
            _hold: hold,
            standing: Mutex::new(standing),
            syncs: Mutex::new(Syncs::new()),
            ended: Condvar::new(),
            swept: Mutex::new(EndedFiles::new(alloc)),
            broom: Condvar::new(),
        })
    }

    /// What a call at this file failed by.
    pub(crate) fn fault_at(&self, name: KeptFileName, cause: io::Error) -> DiskFault<'a> {
        DiskFault::new(self.path, Some(name), cause)
    }

    /// What a call at the folder failed by.
    pub(crate) fn fault(&self, cause: io::Error) -> DiskFault<'a> {
        DiskFault::new(self.path, None, cause)
    }

    /// What is known of the folder's jobs, which nobody else changes meanwhile.
    pub(crate) fn jobs(&self) -> MutexGuard<'_, FolderJobs> {
        self.standing.lock(self.rt)
    }

    /// Where the jobs are, which nobody else changes while that is held.
    pub fn lines(&self) -> HeldLines<'_> {
        HeldLines { jobs: self.jobs() }
    }

    /// The number of the file of the job that a session at this seat begins: the one that was taken as its way was chosen, else one that
    /// no other file gets. An error where none is left.
    pub(crate) fn number(&self, seat: u32) -> io::Result<u64> {
        let number = self.jobs().number_for(seat);
        number.ok_or(io::Error::new(io::ErrorKind::Other, "no number is left"))
    }

    /// Where a file stands. NotFound where the number is none of a job's file, or memory is refused.
    fn path_of(&self, name: KeptFileName) -> io::Result<String> {
        if !name.is_jobs() {
            return Err(io::ErrorKind::NotFound.into());
        }
        let path = self.path;
        Ok(format!(in self.alloc; "{path}/{name}")?)
    }

    /// Makes a file, to which octets are appended.
    pub(crate) fn create(&self, name: KeptFileName) -> io::Result<File> {
        let path = self.path_of(name)?;
        let mut options = OpenOptions::new();
        options.append(true).create_new(true).mode(FILE_MODE);
        options.open(self.rt, path.as_str())
    }

    /// Opens a file to be read from its head on. An error where none is there, or what is there is no file: a pipe would have its opener wait.
    pub(crate) fn open_file(&self, name: KeptFileName) -> io::Result<File> {
        let path = self.path_of(name)?;
        if !fs::metadata(self.rt, path.as_str())?.is_file() {
            return Err(io::Error::new(io::ErrorKind::Other, NO_FILE));
        }
        File::open(self.rt, path.as_str())
    }

    /// Removes a file.
    pub(crate) fn remove(&self, name: KeptFileName) -> io::Result<()> {
        let path = self.path_of(name)?;
        fs::remove_file(self.rt, path.as_str())
    }

    /// Gives a file the name of another stage. AlreadyExists where a file has that: somebody has put it there, and it may be a job of its own.
    pub(crate) fn rename(&self, name: KeptFileName, stage: FileStage) -> io::Result<()> {
        let number = name.number;
        let renamed = KeptFileName { number, stage };
        if !self.is_gone(renamed) {
            return Err(io::ErrorKind::AlreadyExists.into());
        }
        let (from, to) = (self.path_of(name)?, self.path_of(renamed)?);
        fs::rename(self.rt, from.as_str(), to.as_str())
    }

    /// Whether this file isn't there. Not where that can't be told.
    pub(crate) fn is_gone(&self, name: KeptFileName) -> bool {
        let Ok(path) = self.path_of(name) else {
            return false;
        };
        match fs::symlink_metadata(self.rt, path.as_str()) {
            Ok(_) => false,
            Err(cause) => cause.kind() == io::ErrorKind::NotFound,
        }
    }

    /// The names in the folder, in any order, that are as those of jobs' files but for their numbers, which are `NUMBERS_END` or greater: these
    /// are no jobs.
    ///
    /// An error where the folder can't be read, or memory is refused.
    pub fn names_beyond(&self) -> io::Result<Vec<KeptFileName>> {
        names_beyond(self.rt, self.alloc, self.path)
    }

    /// The names of the jobs' files, in any order.
    pub(crate) fn names(&self) -> io::Result<Vec<KeptFileName>> {
        names_in(self.rt, self.alloc, self.path)
    }

    /// Has the names of the folder on the disk: one sync serves all that asked before it began, and where it fails all of them are
    /// told. Waits for a sync of another session that is on its way.
    pub(crate) fn sync_names(&self) -> io::Result<()> {
        let mut syncs = self.syncs.lock(self.rt);
        let wanted = syncs.wanted();
        for _ in 0..u64::MAX {
            match syncs.told(wanted) {
                SyncTold::Ended => return Ok(()),
                SyncTold::Failed(cause) => return Err(cause),
                SyncTold::Wait => syncs = self.ended.wait(self.rt, syncs),
                SyncTold::Lead => {
                    let number = syncs.begin();
                    drop(syncs);
                    let answer = self.folder.sync_all();
                    syncs = self.syncs.lock(self.rt);
                    syncs.end(number, answer);
                    self.ended.notify_all();
                }
            }
        }
        Err(io::Error::from(io::ErrorKind::Other))
    }

    /// Takes the whole file of a job away that has ended. Where somebody sweeps it gets the name of one that comes, which no start prints and each
    /// removes, and waits to be removed.
    fn take_away(&self, number: u64) -> io::Result<()> {
        let stage = FileStage::Whole;
        let whole = KeptFileName { number, stage };
        if !self.swept.lock(self.rt).takes_one()
            || self.rename(whole, FileStage::Temporary).is_err()
        {
            return self.remove(whole);
        }
        if self.swept.lock(self.rt).add(number) {
            self.broom.notify_one();
            return Ok(());
        }
        let stage = FileStage::Temporary;
        self.remove(KeptFileName { number, stage })
    }

    /// Somebody sweeps from now on: whoever calls `sweep` until that answers None. One at a time does.
    pub fn begin_sweeping(&self) {
        self.swept.lock(self.rt).begin();
    }

    /// Removes the next file of a job that has ended, and waits for one where none is there. None once sweeping has ended, and none is left.
    ///
    /// An error where it can't be removed: it stays until the next start then, which doesn't print it.
    pub fn sweep(&self) -> Option<Result<(), DiskFault<'a>>> {
        let mut swept = self.swept.lock(self.rt);
        for _ in 0..u64::MAX {
            match swept.next() {
                Sweep::Remove(number) => {
                    drop(swept);
                    let stage = FileStage::Temporary;
                    let name = KeptFileName { number, stage };
                    return Some(
                        self.remove(name)
                            .map_err(|cause| self.fault_at(name, cause)),
                    );
                }
                Sweep::Wait => swept = self.broom.wait(self.rt, swept),
                Sweep::Leave => break,
            }
        }
        None
    }

    /// Whoever sweeps goes once no file is left: each that comes from now on is removed by whoever ends its job.
    pub fn end_sweeping(&self) {
        self.swept.lock(self.rt).end();
        self.broom.notify_all();
    }

    /// Does with the file of a job what its end asks for. The folder isn't synced for it: after a crash the job may be printed again,
    /// which loses nothing.
    fn act(&self, number: u64, end: JobEnd) -> Result<(), DiskFault<'a>> {
        let stage = FileStage::Whole;
        let name = KeptFileName { number, stage };
        let done = match stage_after(end) {
            None => self.take_away(number),
            Some(stage) => self.rename(name, stage),
        };
        if let Err(cause) = done {
            return Err(self.fault_at(name, cause));
        }
        if end == JobEnd::Failed {
            // Without memory for its number it is counted as soon as the folder is read again.
            let _ = self.jobs().failed.insert(number);
        }
        Ok(())
    }

    /// The job that was accepted by this number has its file under that one. Where it has ended already its file is taken away, or
    /// becomes one that failed.
    ///
    /// An error where the file can't be taken away or renamed, or memory is refused: the file stays then, and is printed again after
    /// the next start.
    pub fn pass(&self, job: u64, file: u64) -> Result<(), DiskFault<'a>> {
        let answer = self.jobs().pass(job, file);
        match answer {
            Ok(Some(end)) => self.act(file, end),
            Ok(None) => Ok(()),
            Err(error) => Err(self.fault(io::Error::from(error))),
        }
    }

    /// The job that was accepted by this number has ended. Its file is taken away, or becomes one that failed: at once, or where it
    /// isn't known yet as soon as the job is passed on.
    ///
    /// An error where the file can't be taken away or renamed, or memory is refused: the file stays then, and is printed again after
    /// the next start.
    pub fn end(&self, job: u64, end: JobEnd) -> Result<(), DiskFault<'a>> {
        let answer = self.jobs().end(job, end);
        match answer {
            Ok(Some(file)) => self.act(file, end),
            Ok(None) => Ok(()),
            Err(error) => Err(self.fault(io::Error::from(error))),
        }
    }

    /// The number of the file of a held job of this number, where it is known.
    pub fn file_of(&self, job: u64) -> Option<u64> {
        self.jobs().files.file_of(job)
    }

    /// The number of acceptance of the held job whose file has this number, where it is known.
    pub fn job_of(&self, file: u64) -> Option<u64> {
        self.jobs().files.job_of(file)
    }

    /// Whether the job whose file has this number is being fed.
    pub fn is_fed(&self, number: u64) -> bool {
        let found = self.jobs().find(number);
        found.is_some_and(|(_, job)| job.state.is_fed())
    }

    /// Removes the file of a job that waits, or of one that has failed: nobody waits for it any more.
    ///
    /// An error where there is no such file, or it can't be removed. Nothing changes then.
    pub fn drop_kept(&self, number: u64) -> Result<FileRemoval, DiskFault<'a>> {
        let mut jobs = self.jobs();
        let Some((queue, job)) = jobs.find(number) else {
            drop(jobs);
            self.drop_failed(number)?;
            return Ok(FileRemoval::Gone);
        };
        if !job.state.is_waiting() {
            return Ok(FileRemoval::IsElsewhere);
        }
        let stage = FileStage::Whole;
        let name = KeptFileName { number, stage };
        // Under the lock, so that nobody feeds it meanwhile.
        if let Err(cause) = self.remove(name) {
            return Err(self.fault_at(name, cause));
        }
        jobs.lines.end(queue, number);
        Ok(FileRemoval::Gone)
    }

    /// Removes a file that failed.
    ///
    /// An error where there is no such file, or it can't be removed.
    fn drop_failed(&self, number: u64) -> Result<(), DiskFault<'a>> {
        let stage = FileStage::Failed;
        let name = KeptFileName { number, stage };
        if let Err(cause) = self.remove(name) {
            return Err(self.fault_at(name, cause));
        }
        self.jobs().failed.remove(&number);
        Ok(())
    }

    /// Whether a job of this number stands in a line: it comes, waits, is being fed, or the spool has it.
    pub fn is_known(&self, number: u64) -> bool {
        self.jobs().lines.is_known(number)
    }

    /// Makes a file that failed a whole one again, which is to be fed then.
    ///
    /// An error where there is no such file, or a whole one of this number is there, or it can't be renamed, or the folder can't be synced.
    pub fn resend(&self, number: u64) -> Result<(), DiskFault<'a>> {
        let stage = FileStage::Whole;
        let whole = KeptFileName { number, stage };
        if !self.is_gone(whole) {
            return Err(self.fault_at(whole, io::ErrorKind::AlreadyExists.into()));
        }
        let stage = FileStage::Failed;
        let name = KeptFileName { number, stage };
        if let Err(cause) = self.rename(name, FileStage::Whole) {
            return Err(self.fault_at(name, cause));
        }
        self.jobs().failed.remove(&number);
        self.sync_names().map_err(|cause| self.fault(cause))
    }

    /// How many jobs wait to be fed, or are being fed.
    pub fn waiting(&self) -> usize {
        self.jobs().waiting()
    }

    /// How many whole jobs there are, where none is coming: those that wait, and those that the spool has.
    pub fn left(&self) -> usize {
        self.jobs().left()
    }

    /// How many jobs have failed.
    pub fn failed(&self) -> usize {
        self.jobs().failed.len()
    }
}
