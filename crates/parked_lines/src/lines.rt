//! The lines of all queues.

ghost use Rattle.std.specs.Prelude.{◌≡◌, ◌<◌, ◌≤◌, [], None, Some, IfErr, IfNone, IfOk, IfSome, MatchOption, OnErr, OnOk, count_by, false, filter, is_some, length, nat_lt, replicate, take};
ghost use Rattle.std.specs.Option.{option_and_then};
ghost use Rattle.std.specs.Bool.{OnFalse, OnTrue};
ghost use Rattle.std.specs.List.{list_any};
ghost use Rattle.parked_lines.specs.declared.state.ParkState.TheVariants.{Coming, Fed, Waiting};
ghost use Rattle.parked_lines.specs.Cause.{IsCause};
ghost use Rattle.parked_lines.specs.Line.{is_fed_of, job_at, job_kept, job_moved, way_of};
ghost use Rattle.parked_lines.specs.Lines.{found, has_known, IsFirstFrom, IsNext, IsOnce, line_of, LosesNone, MovesOne, next_of, NoneFrom};
ghost use Rattle.parked_lines.specs.Parts.{pages_used, rows_used};
ghost use Rattle.parked_lines.specs.States.{is_fed, is_parked};

use crate::job::{JobSize, NewJob, ParkedJob};
use crate::line::QueueLine;
use crate::parts::{FreePart, PartUse};
use crate::state::{JobMove, ParkState};
use std::alloc::{AllocError, Global};
use std::marker::Model;

/// Why a job isn't taken into a line.
#[derive(Clone, Copy, Debug, PartialEq, Eq)]
pub enum AdmissionFault {
    /// There is no such queue.
    NoQueue,
    /// A job of this number stands in a line.
    Known,
    /// Memory is refused.
    Memory,
}

impl From<AllocError> for AdmissionFault {
    ghost use Rattle.std.specs.Prelude.{◌≡◌};
    ghost use Rattle.parked_lines.specs.declared.lines.AdmissionFault.TheVariants.{Memory};

    ghost from_gives = { λ _ e. e ≡ Memory };

    fn from(_: AllocError) -> Self {
        AdmissionFault::Memory
    }
}

/// The jobs of all queues, by the numbers of their files: each in the line of its queue, in its state.
#[derive(Drop)]
pub struct ParkedLines {
    lines: Vec<QueueLine>,
}

impl Model for ParkedLines {
    ghost use Rattle.std.specs.Prelude.{List};
    ghost use Rattle.parked_lines.specs.declared.job.ParkedJob.{ParkedJob};
    ghost use Rattle.parked_lines.specs.Lines.{IsOnce};

    ghost Value = { List (List ParkedJob) };

    ghost view = { λ all. all.lines.items };

    ghost invariant = { λ all. IsOnce all.lines.items };
}

impl ParkedLines {
    /// No job, for this many queues. AllocError where memory is refused.
    pub fn new(alloc: Global, queues: usize) -> Result<ParkedLines, AllocError>
        ensures { IfOk result (λ lines. lines ≡ replicate queues []) }
    {
        let mut lines = Vec::new(alloc);
        for _ in 0..queues {
            lines.push(QueueLine::new(alloc))?;
        }
        Ok(ParkedLines { lines })
    }

    /// How many queues there are.
    pub fn queues(&self) -> usize
        ensures count { result ≡ length self.now }
        ensures once { IsOnce self.now }
    {
        self.lines.len()
    }

    /// The job of this number in the line of a queue.
    pub fn job(&self, queue: usize, number: u64) -> Option<ParkedJob>
        ensures job { result ≡ found self.now queue number }
        ensures once { IsOnce self.now }
    {
        let line = self.lines.get(queue)?;
        line.job(number)
    }

    /// Whether a job of this number stands in some line.
    pub fn is_known(&self, number: u64) -> bool
        ensures { result ≡ has_known self.now number }
    {
        self.lines.iter().any(|line| line.job(number).is_some())
    }

    /// Puts a job into the line of a queue, whose number stands in no line. AllocError where memory is refused: nothing changes then.
    fn put_in(&mut self, queue: usize, job: ParkedJob) -> Result<(), AllocError>
        requires queue { queue < length self.old }
        requires unknown { has_known self.old job.number ≡ false }
        ensures ok { OnOk result (MovesOne self.old self.new queue job.number (Some job)) }
        ensures once { IsOnce self.new }
        ensures err { OnErr result (self.new ≡ self.old) }
    {
        let line = &mut self.lines[queue];
        line.put_in(job)
    }

    /// What is known of a job of a queue is this from now on. Whether there is such a job: else nothing changes.
    fn replace(&mut self, queue: usize, job: ParkedJob) -> bool
        ensures answer { result ≡ is_some (found self.old queue job.number) }
        ensures replaced { OnTrue result (MovesOne self.old self.new queue job.number (Some job)) }
        ensures once { IsOnce self.new }
        ensures missing { OnFalse result (self.new ≡ self.old) }
    {
        if queue >= self.lines.len() {
            return false;
        }
        let line = &mut self.lines[queue];
        line.replace(job)
    }

    /// Takes a job into the line of a queue.
    fn enter(&mut self, queue: usize, job: ParkedJob) -> Result<(), AdmissionFault>
        ensures ok { OnOk result (MovesOne self.old self.new queue job.number (Some job)) }
        ensures new { OnOk result (has_known self.old job.number ≡ false) }
        ensures once { IsOnce self.new }
        ensures cause { IfErr result (λ fault. IsCause self.old queue job.number fault) }
        ensures err { OnErr result (self.new ≡ self.old) }
    {
        if queue >= self.lines.len() {
            return Err(AdmissionFault::NoQueue);
        }
        if self.is_known(job.number) {
            return Err(AdmissionFault::Known);
        }
        self.put_in(queue, job)?;
        Ok(())
    }

    /// A job is opened. Answers its way: `Coming`, through the spool, where that has room for it by its queue's part, no job of its
    /// queue waits or is being fed, and none of its sender with a smaller number comes beside the spool; else `Beside`. Where the
    /// spool refuses it then, it is turned aside.
    ///
    /// An error changes nothing. NoQueue where there is no such queue, Known where a job of this number stands in a line, Memory where
    /// memory is refused.
    pub fn open(
        &mut self,
        queue: usize,
        job: NewJob,
        has_room: bool,
    ) -> Result<ParkState, AdmissionFault>
        ensures way { IfOk result (λ state. state
            ≡ way_of (line_of self.old queue) job.sender job.number has_room) }
        ensures opened { IfOk result (λ state. MovesOne self.old self.new queue job.number
            (Some (job_at job state JobSize.NOTHING))) }
        ensures order { IfOk result (λ state. state ≡ Coming
            → IsNext self.old queue job.sender job.number) }
        ensures lost { LosesNone self.old self.new }
        ensures once { IsOnce self.new }
        ensures cause { IfErr result (λ fault. IsCause self.old queue job.number fault) }
        ensures err { OnErr result (self.new ≡ self.old) }
    {
        let state = self.way_of(queue, &job, has_room);
        self.enter(queue, job.at(state, JobSize::NOTHING))?;
        Ok(state)
    }

    /// The way of a job that is opened.
    fn way_of(&self, queue: usize, job: &NewJob, has_room: bool) -> ParkState
        ensures { result ≡ way_of (line_of self.now queue) job.now.sender job.now.number has_room }
    {
        match self.lines.get(queue) {
            Some(line) => line.way_of(job, has_room),
            None if has_room => ParkState::Coming,
            None => ParkState::Beside,
        }
    }

    /// A job that a start has found whole in the folder waits. The errors are those of `open`.
    pub fn add_found(
        &mut self,
        queue: usize,
        job: NewJob,
        size: JobSize,
    ) -> Result<(), AdmissionFault>
        ensures added { OnOk result (MovesOne self.old self.new queue job.number
            (Some (job_at job Waiting size))) }
        ensures lost { LosesNone self.old self.new }
        ensures once { IsOnce self.new }
        ensures cause { IfErr result (λ fault. IsCause self.old queue job.number fault) }
        ensures err { OnErr result (self.new ≡ self.old) }
    {
        self.enter(queue, job.at(ParkState::Waiting, size))
    }

    /// A job that came is kept, and has this size: one that came through the spool is whole there, one that came beside it waits.
    /// Answers what is known of it then; None, and nothing changes, where there is no such job, or it was kept before.
    pub fn keep(&mut self, queue: usize, number: u64, size: JobSize) -> Option<ParkedJob>
        ensures answer { result ≡ option_and_then (λ job. job_kept job size)
            (found self.old queue number) }
        ensures changed { MatchOption result (self.new ≡ self.old)
            (λ job. MovesOne self.old self.new queue number (Some job)) }
        ensures lost { LosesNone self.old self.new }
        ensures once { IsOnce self.new }
    {
        let job = self.job(queue, number)?.kept(size)?;
        self.replace(queue, job);
        Some(job)
    }

    /// A job is turned aside, is in the spool, or is put back. Answers what is known of it then; None, and nothing changes, where
    /// there is no such job, or this doesn't happen to a job in its state.
    pub fn advance(&mut self, queue: usize, number: u64, change: JobMove) -> Option<ParkedJob>
        ensures answer { result ≡ option_and_then (job_moved change)
            (found self.old queue number) }
        ensures changed { MatchOption result (self.new ≡ self.old)
            (λ job. MovesOne self.old self.new queue number (Some job)) }
        ensures lost { LosesNone self.old self.new }
        ensures once { IsOnce self.new }
    {
        let job = self.job(queue, number)?.moved(change)?;
        self.replace(queue, job);
        Some(job)
    }

    /// The job of a queue that is fed next, where it has room.
    fn next_of(&self, queue: usize, free: &[FreePart]) -> Option<ParkedJob>
        ensures { result ≡ next_of self.now free.now queue }
    {
        let line = self.lines.get(queue)?;
        let part = free.get(queue)?;
        let job = line.first_to_feed()?;
        if part.has_room(job.pages) {
            Some(job)
        } else {
            None
        }
    }

    /// The first of these queues that has a job to be fed next, with that job.
    fn first_in(&self, from: usize, to: usize, free: &[FreePart]) -> Option<(usize, ParkedJob)>
        ensures found { IfSome result (λ next. (from ≤ next.0) × (next.0 < to)
            × (next_of self.now free.now next.0 ≡ Some next.1)) }
        ensures first { IfSome result (λ next. NoneFrom self.now free.now from next.0) }
        ensures none { IfNone result (NoneFrom self.now free.now from to) }
    {
        for queue in from..to {
            if let Some(job) = self.next_of(queue, free) {
                return Some((queue, job));
            }
        }
        None
    }

    /// The first of all queues that has a job to be fed next, with that job: from this one on, and then from the first on.
    fn next_from(&self, turn: usize, free: &[FreePart]) -> Option<(usize, ParkedJob)>
        ensures next { IfSome result (λ next. next_of self.now free.now next.0 ≡ Some next.1) }
        ensures turn { IfSome result (λ next. IsFirstFrom self.now free.now turn next.0) }
        ensures none { IfNone result (NoneFrom self.now free.now 0 (length self.now)) }
        ensures once { IsOnce self.now }
    {
        let count = self.queues();
        if let Some(next) = self.first_in(turn, count, free) {
            return Some(next);
        }
        self.first_in(0, turn.min(count), free)
    }

    /// The job that is fed next, with its queue: it is being fed from now on. The queues are looked at in turn, from this one on.
    ///
    /// `free` says what is free for each queue: of its part, and of the spool; nothing where it stands. The first job of its line
    /// that waits is fed, but for those whose sender has an earlier one that comes beside the spool, where it has room; another
    /// one never in its place. None where no queue has such a job.
    pub fn take_next(&mut self, turn: usize, free: &[FreePart]) -> Option<(usize, ParkedJob)>
        ensures next { IfSome result (λ next. next_of self.old free.now next.0 ≡ Some next.1) }
        ensures fed { IfSome result (λ next. MovesOne self.old self.new next.0 next.1.number
            (Some (record next.1 { state = Fed }))) }
        ensures order { IfSome result (λ next.
            IsNext self.old next.0 next.1.sender next.1.number) }
        ensures turn { IfSome result (λ next. IsFirstFrom self.old free.now turn next.0) }
        ensures none { IfNone result (NoneFrom self.old free.now 0 (length self.old)
            × (self.new ≡ self.old)) }
        ensures lost { LosesNone self.old self.new }
        ensures once { IsOnce self.new }
    {
        let (queue, job) = self.next_from(turn, free)?;
        self.replace(queue, job.in_state(ParkState::Fed));
        Some((queue, job))
    }

    /// A job ends: it was removed, it failed, its last page was printed, or it doesn't come to its end. Answers what was known of it,
    /// None where there is no such job.
    pub fn end(&mut self, queue: usize, number: u64) -> Option<ParkedJob>
        ensures answer { result ≡ found self.old queue number }
        ensures gone { MovesOne self.old self.new queue number None }
        ensures once { IsOnce self.new }
    {
        if queue >= self.lines.len() {
            return None;
        }
        let line = &mut self.lines[queue];
        line.take_out(number)
    }

    /// How many jobs of a queue wait, or are being fed.
    pub fn parked(&self, queue: usize) -> usize
        ensures { result ≡ count_by (λ job. is_parked job.state) (line_of self.now queue) }
    {
        match self.lines.get(queue) {
            Some(line) => line.parked(),
            None => 0,
        }
    }

    /// Whether a job of a queue is being fed.
    pub fn is_feeding(&self, queue: usize) -> bool
        ensures { result ≡ list_any (λ job. is_fed job.state) (line_of self.now queue) }
    {
        match self.lines.get(queue) {
            Some(line) => line.is_feeding(),
            None => false,
        }
    }

    /// Whether a job of this sender for a queue is being fed.
    pub fn is_feeding_of(&self, queue: usize, sender: u32) -> bool
        ensures { result ≡ list_any (is_fed_of sender) (line_of self.now queue) }
    {
        match self.lines.get(queue) {
            Some(line) => line.is_feeding_of(sender),
            None => false,
        }
    }

    /// What the jobs of a queue have of the spool, each of which may come to this many pages: rows of the table, and pages that they hold or
    /// may still claim.
    pub fn used(&self, queue: usize, limit: u32) -> PartUse
        ensures rows { result.rows ≡ rows_used (line_of self.now queue) }
        ensures pages { result.pages ≡ pages_used limit (line_of self.now queue) }
    {
        match self.lines.get(queue) {
            Some(line) => line.used(limit),
            None => PartUse { rows: 0, pages: 0 },
        }
    }

    /// How many queues have jobs.
    pub fn busy(&self) -> usize
        ensures { result ≡ count_by (λ line. nat_lt 0 (length line)) self.now }
    {
        self.lines.iter().filter(|line| line.has_jobs()).count()
    }

    /// The first jobs of a queue that wait or are being fed, in order, this many at most. AllocError where memory is refused.
    pub fn listed(
        &self,
        alloc: Global,
        queue: usize,
        most: usize,
    ) -> Result<Vec<ParkedJob>, AllocError>
        ensures { IfOk result (λ jobs. jobs.items
            ≡ take most (filter (λ job. is_parked job.state) (line_of self.now queue))) }
    {
        match self.lines.get(queue) {
            Some(line) => line.listed(alloc, most),
            None => Ok(Vec::new(alloc)),
        }
    }
}
