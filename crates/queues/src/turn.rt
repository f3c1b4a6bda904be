//! Which of the held jobs is next.

ghost use Rattle.std.specs.Prelude.{◌≡◌, ◌<◌, length};
ghost use Rattle.std.specs.List.{list_any};
ghost use Rattle.held_jobs.specs.Books.{job_at};
ghost use Rattle.held_jobs.specs.Turns.{is_preceded_by, ready_in, goes_on, facts_in, FirstOf, TurnAt};

use crate::book::Book;
use held_jobs::Phase;

impl Book {
    /// Whether the job at `other` is an earlier one of the sender and queue of the job at `i`.
    fn is_before(&self, i: usize, other: usize) -> bool
        requires job { i < length self.now.jobs }
        requires other { other < length self.now.jobs }
        ensures { result ≡ is_preceded_by (job_at self.now i).facts (job_at self.now other).facts }
    {
        let (job, earlier) = (self.job(i), self.job(other));
        earlier.sender() == job.sender()
            && earlier.queue() == job.queue()
            && earlier.number() < job.number()
    }

    /// Whether an earlier job of the sender and queue of the job at a place is held.
    fn has_earlier(&self, i: usize) -> bool
        requires { i < length self.now.jobs }
        ensures { result
            ≡ list_any (is_preceded_by (job_at self.now i).facts) (facts_in self.now.jobs) }
    {
        for other in 0..self.len() {
            if self.is_before(i, other) {
                return true;
            }
        }
        false
    }

    /// Whether a job may be begun by a queue: it is of that queue and received, no place of it was handed out, and no earlier
    /// one of its sender stands before it.
    fn is_ready_in(&self, queue: u32, i: usize) -> bool
        requires { i < length self.now.jobs }
        ensures { result ≡ ready_in (facts_in self.now.jobs) queue (job_at self.now i).facts }
    {
        let job = self.job(i);
        if job.queue() != queue || job.phase() != Phase::Received || job.handed() != 0 {
            return false;
        }
        !self.has_earlier(i)
    }

    /// Whether it is the job of this number, and hasn't ended.
    fn is_going(&self, number: u64, i: usize) -> bool
        requires { i < length self.now.jobs }
        ensures { result ≡ goes_on number (job_at self.now i).facts }
    {
        let job = self.job(i);
        job.number() == number && job.phase() != Phase::Ended
    }

    /// The place of the first job that a queue may begin.
    pub fn ready(&self, queue: u32) -> Option<usize>
        ensures { FirstOf (ready_in (facts_in self.now.jobs) queue) (facts_in self.now.jobs)
            result }
    {
        for i in 0..self.len() {
            if self.is_ready_in(queue, i) {
                return Some(i);
            }
        }
        None
    }

    /// The place of the job of this number, if it hasn't ended.
    fn begun(&self, number: u64) -> Option<usize>
        ensures { FirstOf (goes_on number) (facts_in self.now.jobs) result }
    {
        for i in 0..self.len() {
            if self.is_going(number, i) {
                return Some(i);
            }
        }
        None
    }

    /// The place of the job whose page a printer of a queue gets next: the one that it began, while that hasn't ended, or else
    /// the first that the queue may begin.
    pub fn turn_of(&self, queue: u32, began: Option<u64>) -> Option<usize>
        ensures { TurnAt (facts_in self.now.jobs) queue began result }
    {
        began
            .and_then(|number| self.begun(number))
            .or_else(|| self.ready(queue))
    }
}
