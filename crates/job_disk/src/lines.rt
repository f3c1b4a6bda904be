//! Where the jobs of a folder are, under its lock.

ghost use Rattle.std.specs.Prelude.{◌≡◌, ℕ, None, Some, IfNone, IfOk, IfSome, IsTrue, MatchOption, OnErr, OnOk, count_by, filter, length, nat_lt, take};
ghost use Rattle.std.specs.List.{list_any};
ghost use Rattle.std.specs.Option.{option_and_then};
ghost use Rattle.parked_lines.specs.declared.state.JobMove.TheVariants.{Enter, PutBack, TurnAside};
ghost use Rattle.parked_lines.specs.declared.state.ParkState.TheVariants.{Coming, Fed, Whole};
ghost use Rattle.parked_lines.specs.Line.{is_fed_of, job_kept, job_moved};
ghost use Rattle.parked_lines.specs.Lines.{found, IsNext, line_of, MovesOne, next_of};
ghost use Rattle.parked_lines.specs.Parts.{pages_used, rows_used};
ghost use Rattle.parked_lines.specs.States.{is_fed, is_parked};
ghost use Rattle.parked_lines.specs.declared.job.ParkedJob.{ParkedJob};
ghost use Rattle.job_disk.specs.HeldLines.{found_job, new_job};

use crate::jobs::FolderJobs;
use job_files::JobEnd;
use parked_lines::{
    AdmissionFault, FreePart, JobMove, JobSize, NewJob, ParkState, ParkedJob, PartUse,
};
use std::alloc::{AllocError, Global};
use std::marker::Model;
use std::sync::MutexGuard;

/// Jobs are told by their files here, and not by who owns them.
const NO_OWNER: u32 = 0;

/// What came of a file whose job was to go.
#[derive(Clone, Copy, Debug, PartialEq, Eq)]
pub enum FileRemoval {
    /// It waited to be fed, or had failed, and is removed.
    Gone,
    /// It doesn't wait: it is coming, is being fed, or the spool has it.
    IsElsewhere,
}

/// A job whose way is chosen, with the number that its file gets.
#[derive(Clone, Copy, Debug, PartialEq, Eq)]
pub struct NumberedJob {
    /// The number of its file.
    pub number: u64,
    /// Where it is: it comes through the spool, or beside it.
    pub state: ParkState,
}

/// Where the jobs of a folder are, which nobody else changes while this is held. A queue is told by its place, from 0.
#[derive(Drop)]
pub struct HeldLines<'d> {
    pub(crate) jobs: MutexGuard<'d, FolderJobs>,
}

impl<'d> Model for HeldLines<'d> {
    ghost use Rattle.std.specs.Prelude.{List};
    ghost use Rattle.std.specs.Sync.Mutex.{mutex_guard_value};
    ghost use Rattle.parked_lines.specs.declared.job.ParkedJob.{ParkedJob};

    ghost Value = { List (List ParkedJob) };

    ghost view = { λ held. (mutex_guard_value held.jobs).lines };
}

impl HeldLines<'_> {
    /// What the jobs of a queue have of the spool, each of which may come to this many pages.
    pub fn used(&self, queue: usize, limit: u32) -> PartUse
        ensures rows { result.rows ≡ rows_used (line_of self.now queue) }
        ensures pages { result.pages ≡ pages_used limit (line_of self.now queue) }
    {
        self.jobs.lines.used(queue, limit)
    }

    /// How many queues have jobs.
    pub fn busy(&self) -> usize
        ensures { result ≡ count_by (λ line. nat_lt 0 (length line)) self.now }
    {
        self.jobs.lines.busy()
    }

    /// A session at this seat opens a job of a sender for a queue: its file's number is taken and its way chosen, as `ParkedLines::open`
    /// says. The session's next file gets that number.
    ///
    /// An error as there. Memory also where no number is left.
    pub fn open(
        &mut self,
        seat: u32,
        queue: usize,
        sender: u32,
        has_room: bool,
    ) -> Result<NumberedJob, AdmissionFault>
        ensures opened { IfOk result (λ job. MovesOne self.old self.new queue job.number
            (Some (new_job job sender))) }
        ensures order { IfOk result (λ job. job.state ≡ Coming
            → IsNext self.old queue sender job.number) }
        ensures err { OnErr result (self.new ≡ self.old) }
    {
        let Some(number) = self.jobs.numbers.take() else {
            return Err(AdmissionFault::Memory);
        };
        if self.jobs.taken.insert(seat, number).is_err() {
            return Err(AdmissionFault::Memory);
        }
        let job = NewJob {
            number,
            sender,
            owner: NO_OWNER,
        };
        match self.jobs.lines.open(queue, job, has_room) {
            Ok(state) => Ok(NumberedJob { number, state }),
            Err(fault) => {
                self.jobs.taken.remove(&seat);
                Err(fault)
            }
        }
    }

    /// A job that came through the spool goes on beside it.
    pub fn turn_aside(&mut self, queue: usize, number: u64)
        ensures { MatchOption (option_and_then (job_moved TurnAside) (found self.old queue number))
            (self.new ≡ self.old)
            (λ job. MovesOne self.old self.new queue number (Some job)) }
    {
        self.jobs.lines.advance(queue, number, JobMove::TurnAside);
    }

    /// A job that came is whole and kept, and has this size. What is known of it then, where it was coming.
    pub fn keep(&mut self, queue: usize, number: u64, size: JobSize) -> Option<ParkedJob>
        ensures answer { result ≡ option_and_then (λ job. job_kept job size)
            (found self.old queue number) }
        ensures changed { MatchOption result (self.new ≡ self.old)
            (λ job. MovesOne self.old self.new queue number (Some job)) }
    {
        self.jobs.lines.keep(queue, number, size)
    }

    /// A job that a session at this seat began doesn't come to its end.
    pub fn give_up(&mut self, seat: u32, queue: usize, number: u64)
        ensures { MovesOne self.old self.new queue number None }
    {
        self.jobs.lines.end(queue, number);
        self.jobs.taken.remove(&seat);
    }

    /// A whole job of a sender in this file waits, which a start has found there, or which had failed. The errors are those of
    /// `ParkedLines::add_found`.
    pub fn add_found(
        &mut self,
        queue: usize,
        number: u64,
        sender: u32,
        size: JobSize,
    ) -> Result<(), AdmissionFault>
        ensures ok { OnOk result (MovesOne self.old self.new queue number
            (Some (found_job number sender size))) }
        ensures err { OnErr result (self.new ≡ self.old) }
    {
        let job = NewJob {
            number,
            sender,
            owner: NO_OWNER,
        };
        self.jobs.lines.add_found(queue, job, size)
    }

    /// The job that is fed next, with its queue, as `ParkedLines::take_next` says.
    pub fn take_next(&mut self, turn: usize, free: &[FreePart]) -> Option<(usize, ParkedJob)>
        ensures next { IfSome result (λ next. next_of self.old free.now next.0 ≡ Some next.1) }
        ensures fed { IfSome result (λ next. MovesOne self.old self.new next.0 next.1.number
            (Some (record next.1 { state = Fed }))) }
        ensures order { IfSome result (λ next.
            IsNext self.old next.0 next.1.sender next.1.number) }
        ensures none { IfNone result (self.new ≡ self.old) }
    {
        self.jobs.lines.take_next(turn, free)
    }

    /// The spool has the whole of a job that was fed.
    pub fn enter(&mut self, queue: usize, number: u64)
        ensures { MatchOption (option_and_then (job_moved Enter) (found self.old queue number))
            (self.new ≡ self.old)
            (λ job. MovesOne self.old self.new queue number (Some job)) }
    {
        self.jobs.lines.advance(queue, number, JobMove::Enter);
    }

    /// A job that was fed waits again.
    pub fn put_back(&mut self, queue: usize, number: u64)
        ensures { MatchOption (option_and_then (job_moved PutBack) (found self.old queue number))
            (self.new ≡ self.old)
            (λ job. MovesOne self.old self.new queue number (Some job)) }
    {
        self.jobs.lines.advance(queue, number, JobMove::PutBack);
    }

    /// A job that was fed isn't to be fed any more: its file stays.
    pub fn leave(&mut self, queue: usize, number: u64)
        ensures { MovesOne self.old self.new queue number None }
    {
        self.jobs.lines.end(queue, number);
    }

    /// Whether a job of a queue is being fed.
    pub fn is_feeding(&self, queue: usize) -> bool
        ensures { result ≡ list_any (λ job. is_fed job.state) (line_of self.now queue) }
    {
        self.jobs.lines.is_feeding(queue)
    }

    /// Whether a job of this sender for a queue is being fed.
    pub fn is_feeding_of(&self, queue: usize, sender: u32) -> bool
        ensures { result ≡ list_any (is_fed_of sender) (line_of self.now queue) }
    {
        self.jobs.lines.is_feeding_of(queue, sender)
    }

    /// Whether the job of this number of acceptance is one of a queue that the spool has whole, with a file of which that is known.
    pub fn is_whole(&self, queue: usize, job: u64) -> bool
        ensures { IsTrue result → (number : ℕ) × (known : ParkedJob)
            × (found self.now queue number ≡ Some known) × (known.state ≡ Whole) }
    {
        let Some(file) = self.jobs.files.file_of(job) else {
            return false;
        };
        let known = self.jobs.lines.job(queue, file);
        known.is_some_and(|known| known.state == ParkState::Whole)
    }

    /// The job of this number of acceptance, one of a queue that the spool had whole, isn't there any more, and waits again. Answers the
    /// number of its file; None, and nothing changes, where that isn't known.
    pub fn take_back(&mut self, queue: usize, job: u64) -> Option<u64>
        ensures none { IfNone result (self.new ≡ self.old) }
        ensures back { IfSome result (λ number.
            MatchOption (option_and_then (job_moved PutBack) (found self.old queue number))
            (self.new ≡ self.old)
            (λ job. MovesOne self.old self.new queue number (Some job))) }
    {
        let file = self.jobs.files.file_of(job)?;
        // Nobody else ends a job that waits: this forgets its number of acceptance.
        let _ = self.jobs.files.end(job, JobEnd::Removed);
        self.jobs.lines.advance(queue, file, JobMove::PutBack);
        Some(file)
    }

    /// How many jobs of a queue wait, or are being fed.
    pub fn parked(&self, queue: usize) -> usize
        ensures { result ≡ count_by (λ job. is_parked job.state) (line_of self.now queue) }
    {
        self.jobs.lines.parked(queue)
    }

    /// The first jobs of a queue that wait or are being fed, in order, this many at most. AllocError where memory is refused.
    pub fn listed(
        &self,
        alloc: Global,
        queue: usize,
        most: usize,
    ) -> Result<Vec<ParkedJob>, AllocError>
        ensures { IfOk result (λ jobs. jobs.items
            ≡ take most (filter (λ job. is_parked job.state) (line_of self.now queue))) }
    {
        self.jobs.lines.listed(alloc, queue, most)
    }
}
