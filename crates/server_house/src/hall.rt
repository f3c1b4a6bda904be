//! What all threads of a server share beside its spool.

use crate::oversight::Oversight;
use crate::posts::Posts;
use crate::sessions::{most_of, sessions_of};
use crate::showing::Showing;
use config_values::Config;
use connection_lobby::{Desk, Doors};
use job_files::JobEnd;
use log::Log;
use mio::Waker;
use program_edge::{Limits, PrinterLimits, Settings};
use server_folders::{Archive, JobFolder};
use server_notes::{
    JobBook, JobOutcome, Offers, PutOffs, Restarts, Rotations, ServerEnding, Withdrawals,
};
use std::alloc::{AllocError, Global};
use std::fs::{File, Files};
use std::rt::Clock;
use std::str;
use std::sync::{Mutex, Wait};

/// What all threads of a server share beside its spool. It is made once, of the settings, and the scope lends it to each thread, whose
/// life is one call that is given it. What one thread alone needs is moved into that, as what a printer prints to is.
#[derive(Drop)]
pub struct Hall<'a, R> {
    pub rt: &'a R,
    pub alloc: Global,
    pub limits: Limits,
    /// What printers on the network may do.
    pub printer_limits: PrinterLimits,
    /// When queues are started again.
    pub restarts: Restarts,
    /// Which queues are started again at once.
    pub withdrawals: Withdrawals,
    /// The jobs at printers that may be put back.
    pub offers: Offers,
    /// Which printers gave their jobs back, and when they are tried again.
    pub put_offs: PutOffs,
    /// From how many counted entries on the account is rotated, where room is kept in it.
    pub least: Option<u64>,
    pub desk: Desk,
    pub posts: Posts,
    pub rotations: Rotations,
    /// What wakes the porter.
    pub waker: Waker,
    pub oversight: Oversight,
    pub ending: ServerEnding,
    /// Where jobs are kept until they are printed, if they are.
    pub kept: Option<JobFolder<'a, R>>,
    /// Held while a job is opened, where each queue has a part of the spool and no more.
    pub parts: Option<Mutex<()>>,
    /// Where the account's segments become files, if they do.
    pub archive: Option<Archive<'a>>,
    /// What is noted of each job, where the log has lines of them or somebody may ask how they stand.
    pub job_book: Option<JobBook>,
    /// What is known of the thread that shows the status, where there is one.
    pub showing: Option<Showing>,
}

impl<'a, R> Hall<'a, R> {
    /// That of a server of these settings and this configuration, whose porter is woken by this, and what
    /// connections are handed to it by. Nobody looks after it yet, nothing is kept in folders, and no room is kept in the account.
    ///
    /// AllocError where memory is refused.
    pub fn new(
        rt: &'a R,
        alloc: Global,
        settings: &Settings<'_>,
        config: &Config,
        waker: Waker,
    ) -> Result<(Hall<'a, R>, Doors), AllocError> {
        let is_shown = settings.status.is_some() || settings.control.is_some();
        let restarts = Restarts::new(alloc, config.queues().len(), settings.restart_seconds)?;
        let withdrawals = Withdrawals::new(alloc, config.queues().len())?;
        let offers = Offers::new(alloc, config.printer_count())?;
        let put_offs = PutOffs::new(alloc, config.printer_count())?;
        let posts = Posts::new(alloc, sessions_of(settings) as usize)?;
        let job_book = JobBook::open(alloc, settings.log_jobs, is_shown, config.max_jobs())?;
        let oversight = Oversight::new(alloc, config)?;
        let (desk, doors) = Desk::new(alloc, most_of(settings.limits.per_host))?;
        let hall = Hall {
            rt,
            alloc,
            limits: settings.limits,
            printer_limits: settings.printer_limits,
            restarts,
            withdrawals,
            offers,
            put_offs,
            least: None,
            desk,
            posts,
            rotations: Rotations::new(alloc),
            waker,
            oversight,
            ending: ServerEnding::new(),
            kept: None,
            parts: settings.parts.then_some(Mutex::new(())),
            archive: None,
            job_book,
            showing: None,
        };
        Ok((hall, doors))
    }
}

impl<R> Hall<'_, R> {
    /// Whether somebody looks after the server, or at it.
    pub fn is_watched(&self) -> bool {
        self.oversight.start.is_some()
    }

    /// The name of a queue, of which each octet is a character of ASCII.
    pub fn queue_name(&self, queue: u32) -> &str {
        str::from_utf8(self.oversight.config.name_of(queue)).unwrap_or("")
    }
}

impl<R: Files<File = File> + Clock + Log + Wait> Hall<'_, R> {
    /// Notes which file a job has in the folder that keeps jobs, where it has one and its end isn't known there yet.
    pub fn note_file(&self, job: u64) {
        if let (Some(kept), Some(book)) = (&self.kept, &self.job_book) {
            if let Some(file) = kept.disk.file_of(job) {
                book.note_file(self.rt, job, file);
            }
        }
    }

    /// Has the file of a job taken away or renamed that isn't held any more, and notes how the job ended.
    pub fn end_job(&self, job: u64, end: JobEnd) {
        // Which file it is isn't known afterwards.
        self.note_file(job);
        if let Some(kept) = &self.kept {
            kept.end(self.rt, job, end);
        }
        if let Some(book) = &self.job_book {
            book.end(self.rt, job, JobOutcome::Ended(end));
        }
    }

    /// Notes that a job waits in the folder again.
    pub fn note_put_back(&self, job: u64, file: u64) {
        if let Some(book) = &self.job_book {
            book.note_file(self.rt, job, file);
            book.end(self.rt, job, JobOutcome::PutBack);
        }
    }

    /// Has the files of jobs that were removed taken away, and notes the end of these jobs.
    pub fn end_removed(&self, jobs: Vec<u64>) {
        for job in jobs {
            self.end_job(job, JobEnd::Removed);
        }
    }
}
