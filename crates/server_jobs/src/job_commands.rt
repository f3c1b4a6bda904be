//! Commands for one job: it is removed, by its number of acceptance or by that of its file, or fed again.

use crate::answer_lines::AnswerLines;
use crate::owned_job::OwnedJob;
use control_lines::AnswerEnd;
use log::Log;
use server_folders::{FileRemoval, FiledJob, JobFolder, Unsent};
use server_house::{Hall, HouseLedger, HouseSeat, HouseSpool};
use shared_spool::{Refusal, SeenJob, Unremoved};
use standings::{JobName, JobNumber, JobStage, stage_of};
use std::alloc::AllocError;
use std::fmt::Display;
use std::fs::{File, Files};
use std::rt::Clock;
use std::sync::Wait;

/// Why a kept job can't be named where none is kept.
const NOT_KEPT: &str = "no jobs are kept: the server has no --spool";

/// Why one can't be named whose file says nothing of it.
const NO_JOB: &str = "the file isn't that of a kept job";

/// How many jobs are told of that are fed again together, at most.
const MOST_TOLD: usize = 1_000;

/// The name of a job in this file.
fn filed_name(number: u64, job: &FiledJob) -> OwnedJob<'_> {
    OwnedJob {
        name: JobName {
            number: JobNumber::File(number),
            client: Some(job.control.number),
        },
        user: job.control.user.as_slice(),
        host: job.control.host.as_slice(),
        queue: job.owner.queue.as_slice(),
    }
}

/// Whether a job is whole and hasn't ended.
pub fn is_received(job: &SeenJob) -> bool {
    matches!(stage_of(job), JobStage::Waiting | JobStage::Printing)
}

/// Who does with single jobs of a server what is asked at its control socket.
#[derive(Drop)]
pub struct JobCommander<'h, 'a, R, E: HouseLedger> {
    pub spool: &'h HouseSpool<E>,
    pub hall: &'h Hall<'a, R>,
}

impl<R, E: HouseLedger> JobCommander<'_, '_, R, E> {
    /// An answer without a line.
    fn no_lines(&self) -> AnswerLines {
        AnswerLines::new(self.hall.alloc)
    }
}

impl<R: Files<File = File> + Clock + Log + Wait, E: HouseLedger> JobCommander<'_, '_, R, E> {
    /// The name of a held job.
    pub fn name_of<'j>(&'j self, job: &'j SeenJob) -> OwnedJob<'j> {
        let book = self.hall.job_book.as_ref();
        OwnedJob {
            name: JobName {
                number: JobNumber::Accepted(job.number),
                client: book.and_then(|book| book.number_of(self.hall.rt, job.number)),
            },
            user: job.user.as_slice(),
            host: job.host.as_slice(),
            queue: self.hall.oversight.config.name_of(job.queue),
        }
    }

    /// The answer that tells that this was done to a job.
    fn tell_done(&self, what: &str, job: &OwnedJob<'_>) -> Result<Vec<u8>, AllocError> {
        let mut answer = self.no_lines();
        answer.line(format!(in self.hall.alloc; "{what} {job}"));
        answer.end(AnswerEnd::Done)
    }

    /// The answer that it wasn't, for this reason.
    fn refuse<W: Display + Drop>(&self, why: W) -> Result<Vec<u8>, AllocError> {
        self.no_lines().end_by(Some(why))
    }

    /// Removes a received job, which is told by this name.
    fn remove_one(
        &self,
        seat: &mut HouseSeat<E>,
        job: &SeenJob,
        name: &OwnedJob<'_>,
    ) -> Result<Vec<u8>, AllocError> {
        let number = job.number;
        if matches!(stage_of(job), JobStage::Arriving) {
            let why = format!(in self.hall.alloc;
                "{name} is still arriving: it can be removed once it is whole"
            )?;
            return self.refuse(why);
        }
        let queue = self.hall.oversight.config.name_of(job.queue);
        match self.spool.remove_jobs(self.hall.rt, seat, queue, &[number]) {
            Ok(_) => {
                // What is told is known before the job's end is noted.
                let answer = self.tell_done("removed", name);
                let removed = Vec::from_slice(self.hall.alloc, &[number])?;
                self.hall.end_removed(removed);
                answer
            }
            Err(Unremoved::Stays(_)) => {
                let why = format!(in self.hall.alloc; "{name} has ended")?;
                self.refuse(why)
            }
            Err(Unremoved::Refused(refusal)) => self.refuse(refusal),
        }
    }

    /// Removes a received job, by its number of acceptance, and tells whose it was.
    pub fn cancel_job(&self, seat: &mut HouseSeat<E>, number: u64) -> Result<Vec<u8>, AllocError> {
        let sight = self.spool.sight(self.hall.rt, self.hall.alloc)?;
        let mut jobs = sight.spool.jobs.iter();
        let Some(job) = jobs.find(|job| job.number == number) else {
            let why = format!(in self.hall.alloc; "no job {number} is held")?;
            return self.refuse(why);
        };
        self.remove_one(seat, job, &self.name_of(job))
    }

    /// Removes a job that the spool has, of which this is the file.
    fn cancel_held(
        &self,
        seat: &mut HouseSeat<E>,
        job: u64,
        name: &OwnedJob<'_>,
    ) -> Result<Vec<u8>, AllocError> {
        let sight = self.spool.sight(self.hall.rt, self.hall.alloc)?;
        let mut jobs = sight.spool.jobs.iter();
        match jobs.find(|seen| seen.number == job) {
            Some(seen) => self.remove_one(seat, seen, name),
            None => {
                let why = format!(in self.hall.alloc; "{name} has ended")?;
                self.refuse(why)
            }
        }
    }

    /// Has a job go that waits in the folder, has failed there, or is being fed.
    fn cancel_waiting(
        &self,
        kept: &JobFolder<'_, R>,
        number: u64,
        filed: &FiledJob,
    ) -> Result<Vec<u8>, AllocError> {
        let name = filed_name(number, filed);
        match kept.remove(self.hall.rt, number) {
            Ok(FileRemoval::Gone) => self.tell_done("removed", &name),
            Ok(FileRemoval::IsElsewhere) => {
                let why = format!(in self.hall.alloc;
                    "{name} is just entering the spool: ask again"
                )?;
                self.refuse(why)
            }
            Err(fault) => {
                let why = format!(in self.hall.alloc;
                    "{name} neither waits nor has failed: ask again: {fault}"
                )?;
                self.refuse(why)
            }
        }
    }

    /// Removes a kept job, by the number of its file, and tells whose it was: from the spool where that has it, else from the folder.
    pub fn cancel_file(&self, seat: &mut HouseSeat<E>, number: u64) -> Result<Vec<u8>, AllocError> {
        let Some(kept) = &self.hall.kept else {
            return self.refuse(NOT_KEPT);
        };
        let filed = match kept.filed(self.hall.rt, self.hall.alloc, number) {
            Ok(Some(filed)) => filed,
            Ok(None) => return self.refuse(NO_JOB),
            Err(fault) => return self.refuse(fault),
        };
        match kept.disk.job_of(number) {
            Some(job) => self.cancel_held(seat, job, &filed_name(number, &filed)),
            None => self.cancel_waiting(kept, number, &filed),
        }
    }

    /// Has a failed job of this folder fed again, by the number of its file, and answers whose it is.
    fn resend_one<'k>(
        &self,
        kept: &'k JobFolder<'_, R>,
        number: u64,
    ) -> Result<FiledJob, Unsent<'k>> {
        let config = &self.hall.oversight.config;
        kept.resend(self.hall.rt, self.hall.alloc, config, number)
    }

    /// Has a job fed again that has failed, by the number of its file, and tells whose it is.
    pub fn resend_job(&self, number: u64) -> Result<Vec<u8>, AllocError> {
        let Some(kept) = &self.hall.kept else {
            return self.refuse(NOT_KEPT);
        };
        match self.resend_one(kept, number) {
            Ok(filed) => self.tell_done("resent", &filed_name(number, &filed)),
            Err(Unsent::Memory) => Err(AllocError),
            Err(why) => self.refuse(why),
        }
    }

    /// Whether the failed job in this file is one of a queue, where a queue is named.
    fn is_meant(&self, kept: &JobFolder<'_, R>, number: u64, queue: Option<&[u8]>) -> bool {
        let Some(queue) = queue else {
            return true;
        };
        match kept.filed(self.hall.rt, self.hall.alloc, number) {
            Ok(Some(filed)) => filed.owner.queue.as_slice() == queue,
            Ok(None) | Err(_) => false,
        }
    }

    /// Has each job fed again that has failed, of the queue of a name where one is given. Tells whose the first 1,000 are, how many more
    /// there are, and which couldn't be.
    pub fn resend_all(&self, queue: Option<&[u8]>) -> Result<Vec<u8>, AllocError> {
        let Some(kept) = &self.hall.kept else {
            return self.refuse(NOT_KEPT);
        };
        if queue.is_some_and(|name| self.hall.oversight.config.queue_named(name).is_none()) {
            return self.refuse(Refusal::UnknownQueue);
        }
        let numbers = match kept.failed(self.hall.alloc) {
            Ok(numbers) => numbers,
            Err(fault) => return self.refuse(fault),
        };
        let mut answer = self.no_lines();
        let mut sent = 0usize;
        for number in numbers {
            if self.is_meant(kept, number, queue) {
                sent = sent.saturating_add(1);
                self.tell_resent(&mut answer, kept, number, sent <= MOST_TOLD);
            }
        }
        if sent == 0 {
            answer.words("resent none");
        } else if sent > MOST_TOLD {
            answer.line(format!(in self.hall.alloc; ".. and {} more", sent - MOST_TOLD));
        }
        answer.end(AnswerEnd::Done)
    }

    /// Has a failed job fed again. Tells whose it is where that is wanted, and in any case where it couldn't be.
    fn tell_resent(
        &self,
        answer: &mut AnswerLines,
        kept: &JobFolder<'_, R>,
        number: u64,
        is_told: bool,
    ) {
        match self.resend_one(kept, number) {
            Ok(filed) if is_told => {
                let name = filed_name(number, &filed);
                answer.line(format!(in self.hall.alloc; "resent {name}"));
            }
            Ok(_) => {}
            Err(Unsent::Memory) => answer.line(Err(AllocError)),
            Err(why) => answer.line(format!(in self.hall.alloc;
                "file {number} isn't resent: {why}"
            )),
        }
    }
}
