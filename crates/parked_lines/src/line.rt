//! The jobs of one queue.

ghost use Rattle.std.specs.Prelude.{◌≡◌, ◌<◌, ◌≤◌, [], None, Some, OnErr, OnOk, IfOk, MatchOption, count_by, filter, find, is_some, length, nat_lt, position, take};
ghost use Rattle.std.specs.Bool.{OnFalse, OnTrue};
ghost use Rattle.std.specs.List.{AllWithin, list_any, take_while};
ghost use Rattle.parked_lines.specs.Line.{Becomes, IsAt, IsPlaceOf, IsRising, has_earlier, has_parked, is_earlier, is_fed_of, job_of, may_feed, way_of};
ghost use Rattle.parked_lines.specs.Parts.{pages_used, rows_used};
ghost use Rattle.parked_lines.specs.States.{is_fed, is_parked};

use crate::job::{NewJob, ParkedJob};
use crate::parts::PartUse;
use crate::state::ParkState;
use std::alloc::{AllocError, Global};
use std::collections::VecDeque;
use std::marker::Model;

/// The jobs of one queue, by the numbers of their files: each number once, in order. The ones that the spool has stand among those
/// that wait, so that a job that is put back needs no memory.
#[derive(Drop)]
pub(crate) struct QueueLine {
    jobs: VecDeque<ParkedJob>,
}

impl Model for QueueLine {
    ghost use Rattle.std.specs.Prelude.{List};
    ghost use Rattle.parked_lines.specs.declared.job.ParkedJob.{ParkedJob};
    ghost use Rattle.parked_lines.specs.Line.{IsRising};

    ghost Value = { List ParkedJob };

    ghost view = { λ line. line.jobs.items };

    ghost invariant = { λ line. IsRising line.jobs.items };
}

impl QueueLine {
    /// No job.
    pub(crate) fn new(alloc: Global) -> QueueLine
        ensures { result ≡ [] }
    {
        QueueLine {
            jobs: VecDeque::new(alloc),
        }
    }

    /// The place of the first job that has this number or a greater one.
    fn seek(&self, number: u64) -> usize
        ensures within { result ≤ length self.now }
        ensures before { AllWithin (λ job. job.number < number) self.now 0 result }
        ensures from { AllWithin (λ job. number ≤ job.number) self.now result (length self.now) }
    {
        let mut low = 0;
        let mut high = self.jobs.len();
        'halves: while low < high {
            let middle = low + (high - low) / 2;
            if self.jobs[middle].number < number {
                low = middle + 1;
            } else {
                high = middle;
            }
        }
        low
    }

    /// The place of the job of this number.
    fn place_of(&self, number: u64) -> Option<usize>
        ensures { IsPlaceOf self.now number result }
    {
        let place = self.seek(number);
        if place < self.jobs.len() && self.jobs[place].number == number {
            Some(place)
        } else {
            None
        }
    }

    /// The job of this number.
    pub(crate) fn job(&self, number: u64) -> Option<ParkedJob>
        ensures { result ≡ job_of self.now number }
    {
        match self.place_of(number) {
            Some(place) => Some(self.jobs[place]),
            None => None,
        }
    }

    /// Whether a job waits, or is being fed.
    fn has_parked(&self) -> bool
        ensures { result ≡ has_parked self.now }
    {
        self.jobs.iter().any(|job| job.state.is_parked())
    }

    /// Whether one of the jobs with a smaller number, which stand first, is of this sender and isn't the spool's.
    fn is_held_up(&self, sender: u32, number: u64) -> bool
        ensures { result ≡ list_any (is_earlier sender number)
            (take_while (λ job. nat_lt job.number number) self.now) }
    {
        self.jobs
            .iter()
            .take_while(|job| job.number < number)
            .any(|job| job.is_earlier(sender, number))
    }

    /// Whether a job of this sender with a smaller number comes beside the spool, waits, or is being fed.
    fn has_earlier(&self, sender: u32, number: u64) -> bool
        ensures { result ≡ has_earlier self.now sender number }
    {
        let _ = &self.jobs;
        self.is_held_up(sender, number)
    }

    /// The way of a job that is opened.
    pub(crate) fn way_of(&self, job: &NewJob, has_room: bool) -> ParkState
        ensures { result ≡ way_of self.now job.now.sender job.now.number has_room }
    {
        if has_room && !self.has_parked() && !self.has_earlier(job.sender, job.number) {
            ParkState::Coming
        } else {
            ParkState::Beside
        }
    }

    /// Whether a job waits, and no earlier one of its sender holds it up.
    fn may_feed(&self, job: &ParkedJob) -> bool
        ensures { result ≡ may_feed self.now job.now }
    {
        job.state.is_waiting() && !self.has_earlier(job.sender, job.number)
    }

    /// The place of the first job that waits and that no earlier one of its sender holds up.
    fn place_to_feed(&self) -> Option<usize>
        ensures { result ≡ position (may_feed self.now) self.now }
    {
        self.jobs.iter().position(|job| self.may_feed(job))
    }

    /// The first job that waits and that no earlier one of its sender holds up.
    pub(crate) fn first_to_feed(&self) -> Option<ParkedJob>
        ensures { result ≡ find (may_feed self.now) self.now }
    {
        match self.place_to_feed() {
            Some(place) => Some(self.jobs[place]),
            None => None,
        }
    }

    /// How many jobs wait, or are being fed.
    pub(crate) fn parked(&self) -> usize
        ensures { result ≡ count_by (λ job. is_parked job.state) self.now }
    {
        self.jobs.iter().filter(|job| job.state.is_parked()).count()
    }

    /// Whether a job is being fed.
    pub(crate) fn is_feeding(&self) -> bool
        ensures { result ≡ list_any (λ job. is_fed job.state) self.now }
    {
        self.jobs.iter().any(|job| job.state.is_fed())
    }

    /// Whether a job of this sender is being fed.
    pub(crate) fn is_feeding_of(&self, sender: u32) -> bool
        ensures { result ≡ list_any (is_fed_of sender) self.now }
    {
        self.jobs
            .iter()
            .any(|job| job.state.is_fed() && job.sender == sender)
    }

    /// What its jobs have of the spool, each of which may come to this many pages.
    pub(crate) fn used(&self, limit: u32) -> PartUse
        ensures rows { result.rows ≡ rows_used self.now }
        ensures pages { result.pages ≡ pages_used limit self.now }
    {
        let rows = self
            .jobs
            .iter()
            .filter(|job| job.state.is_in_spool())
            .count();
        let pages = self.jobs.iter().fold(
            0u64,
            |so_far, job| so_far.saturating_add(u64::from(job.pages_used(limit))),
        );
        PartUse {
            rows: rows as u64,
            pages,
        }
    }

    /// Whether it has a job.
    pub(crate) fn has_jobs(&self) -> bool
        ensures { result ≡ nat_lt 0 (length self.now) }
    {
        self.jobs.len() > 0
    }

    /// The first jobs that wait or are being fed, in order, this many at most. AllocError where memory is refused.
    pub(crate) fn listed(&self, alloc: Global, most: usize) -> Result<Vec<ParkedJob>, AllocError>
        ensures { IfOk result (λ jobs. jobs.items
            ≡ take most (filter (λ job. is_parked job.state) self.now)) }
    {
        self.jobs
            .iter()
            .filter(|job| job.state.is_parked())
            .take(most)
            .copied()
            .collect(alloc)
    }

    /// Puts a job in whose number no other one has. AllocError where memory is refused: nothing changes then.
    pub(crate) fn put_in(&mut self, job: ParkedJob) -> Result<(), AllocError>
        requires { job_of self.old job.number ≡ None }
        ensures ok { OnOk result (Becomes self.old self.new job.number (Some job)) }
        ensures rising { IsRising self.new }
        ensures err { OnErr result (self.new ≡ self.old) }
    {
        let place = self.seek(job.number);
        self.jobs.insert(place, job)?;
        Ok(())
    }

    /// What is known of the job of this number is this from now on. Whether there is such a job: else nothing changes.
    pub(crate) fn replace(&mut self, job: ParkedJob) -> bool
        ensures answer { result ≡ is_some (job_of self.old job.number) }
        ensures replaced { OnTrue result (Becomes self.old self.new job.number (Some job)) }
        ensures rising { IsRising self.new }
        ensures missing { OnFalse result (self.new ≡ self.old) }
    {
        let Some(place) = self.place_of(job.number) else {
            return false;
        };
        self.jobs[place] = job;
        true
    }

    /// Takes the job of this number out, and answers it.
    pub(crate) fn take_out(&mut self, number: u64) -> Option<ParkedJob>
        ensures answer { result ≡ job_of self.old number }
        ensures gone { Becomes self.old self.new number None }
        ensures rising { IsRising self.new }
    {
        let place = self.place_of(number)?;
        self.jobs.remove(place)
    }
}
