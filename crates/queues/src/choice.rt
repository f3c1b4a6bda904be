//! Which of the held jobs a list of words chooses, for the state of a queue and for a removal (RFC 1179, sections 5.3 to 5.5).

ghost use Rattle.std.specs.Prelude.{◌≡◌, ◌++◌, ◌∷◌, [], IfOk, OnOk, if◌then◌else◌, length, map};
ghost use Rattle.held_jobs.specs.Jobs.{Facts};
ghost use Rattle.lpd_values.specs.Choice as C;
ghost use Rattle.held_jobs.specs.Told.{told_in};
ghost use Rattle.held_jobs.specs.Turns.{FirstOf, facts_in};
ghost use Rattle.queues.specs.Tests.{is_from};

use crate::book::Book;
use held_jobs::Job;
use lpd_values::Octets;
use std::alloc::AllocError;
use told_jobs::{ToldJobs, active, is_picked, listed, may_remove};

impl ToldJobs for Book {
    ghost use Rattle.held_jobs.specs.Jobs.{Facts};
    ghost use Rattle.held_jobs.specs.Told.{told_in};
    ghost use Rattle.held_jobs.specs.Turns.{facts_in};

    type Job = Job;

    ghost Known = { Facts };

    ghost told = { told_in };

    ghost jobs = { λ b. facts_in b.jobs };

    fn len(&self) -> usize {
        Book::len(self)
    }

    fn job(&self, i: usize) -> &Job {
        Book::job(self, i)
    }
}

/// Whether a job is of this sender and queue.
fn is_from(sender: u32, queue: u32, job: &Job) -> bool
    ensures { result ≡ is_from sender queue job.now }
{
    job.sender() == sender && job.queue() == queue
}

/// Puts a number behind these, where a removal takes its job.
fn put_where_taken(numbers: &mut Vec<u64>, is_taken: bool, number: u64) -> Result<(), AllocError>
    ensures { OnOk result (numbers.new.items ≡ numbers.old.items
        ++ (if is_taken then number ∷ [] else [])) }
{
    if is_taken {
        numbers.push(number)?;
    }
    Ok(())
}

impl Book {
    /// How many jobs of a queue are received and haven't ended.
    pub fn listed(&self, queue: u32) -> usize
        ensures { result ≡ length (C.listed told_in queue (facts_in self.now.jobs)) }
    {
        listed(self, queue)
    }

    /// The place of the job of a queue that is being printed and was accepted first.
    pub fn active(&self, queue: u32) -> Option<usize>
        ensures { FirstOf (λ j. C.is_active queue (told_in j)) (facts_in self.now.jobs) result }
    {
        active(self, queue)
    }

    /// The place of the first held job of a sender and queue.
    pub fn head_of_sender(&self, sender: u32, queue: u32) -> Option<usize>
        ensures { FirstOf (is_from sender queue) (facts_in self.now.jobs) result }
    {
        for i in 0..self.len() {
            if is_from(sender, queue, self.job(i)) {
                return Some(i);
            }
        }
        None
    }

    /// The number of the active job of a queue, where an agent may remove it.
    fn chosen_active(&self, queue: u32, agent: &[u8]) -> Result<Vec<u64>, AllocError>
        ensures { IfOk result (λ numbers. numbers.items
            ≡ map (λ (j : Facts). j.number)
            (C.chosen told_in queue agent.now [] (facts_in self.now.jobs))) }
    {
        let mut numbers = Vec::new(self.alloc());
        let Some(i) = active(self, queue) else {
            return Ok(numbers);
        };
        let job = self.job(i);
        put_where_taken(&mut numbers, may_remove(agent, job), job.number())?;
        Ok(numbers)
    }

    /// The numbers of the jobs that a removal by these words takes.
    fn chosen_by(&self, queue: u32, agent: &[u8], words: &[Octets]) -> Result<Vec<u64>, AllocError>
        ensures { IfOk result (λ numbers. numbers.items
            ≡ map (λ (j : Facts). j.number)
            (C.picked told_in queue agent.now words.now (facts_in self.now.jobs))) }
    {
        let mut numbers = Vec::new(self.alloc());
        for i in 0..self.len() {
            let job = self.job(i);
            let is_taken = is_picked(queue, agent, words, job);
            put_where_taken(&mut numbers, is_taken, job.number())?;
        }
        Ok(numbers)
    }

    /// The numbers of the jobs that an agent removes by a list, in order of acceptance.
    ///
    /// AllocError where memory for them is refused.
    pub fn chosen(&self, queue: u32, agent: &[u8], list: &[Octets]) -> Result<Vec<u64>, AllocError>
        ensures { IfOk result (λ numbers. numbers.items
            ≡ map (λ (j : Facts). j.number)
            (C.chosen told_in queue agent.now list.now (facts_in self.now.jobs))) }
    {
        match list {
            [] => self.chosen_active(queue, agent),
            _ => self.chosen_by(queue, agent, list),
        }
    }
}
