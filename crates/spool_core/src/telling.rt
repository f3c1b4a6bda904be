//! The state of a queue, and the removal of its jobs.

ghost use Rattle.std.specs.Prelude.{◌≡◌, ◌≤◌, IfOk, length};
ghost use Rattle.lpd_values.specs.Texts.{state_text};
ghost use Rattle.config_values.specs.Config.{queue_at};
ghost use Rattle.held_jobs.specs.Told.{told_in};
ghost use Rattle.held_jobs.specs.Turns.{facts_in};
ghost use Rattle.spool_calls.specs.Calls.{IsRight, Removes, Tells};
ghost use Rattle.spool_calls.specs.Telling.{Chooses, serving, stopped_in};
ghost use Rattle.spool_core.specs.Halves.{FindsRemoval, MayRemove, RemovesJobs};

use crate::closing::end_listed;
use crate::core_state::Core;
use crate::printers::{count_serving, count_stopped_in};
use config_values::Config;
use lpd_values::{Octets, Refusal};
use queues::{Book, StateQuery};
use spool_calls::Printer;
use std::alloc::AllocError;

/// What a removal takes, before it is carried out.
#[derive(Drop)]
pub struct Removal {
    /// The number of the queue.
    pub queue: u32,
    /// The numbers of the jobs, in order of acceptance.
    pub numbers: Vec<u64>,
    /// The text that tells of them.
    pub text: Octets,
}

/// The text for the state of a queue.
fn state_of(
    config: &Config,
    book: &Book,
    printers: &[Printer],
    query: &StateQuery,
) -> Result<Octets, AllocError>
    ensures { IfOk result (λ text. text
        ≡ state_text told_in query.now.queue (queue_at config.now query.now.queue).name
        (length (serving query.now.queue printers.now))
        (length (stopped_in query.now.queue printers.now))
        query.now.list.now query.now.long (facts_in book.now.jobs)) }
{
    let queue = query.queue;
    let name = config.name_of(queue);
    let serving = count_serving(printers, queue);
    let stopped = count_stopped_in(printers, queue);
    let text = book.state(queue, name, serving, stopped, query.list, query.long)?;
    Ok(Octets::from_vec(text))
}

impl Core {
    /// The text that answers a question for the state of a queue: a line for the queue, and then the lines of the jobs that
    /// the list chooses, or of all listed ones where it is empty. A closed spool answers too.
    ///
    /// UnknownQueue; Memory where memory for the text is refused.
    pub fn state(&self, queue: &[u8], list: &[Octets], long: bool) -> Result<Octets, Refusal>
        ensures { IsRight self.now (λ d b h. Tells d b h self.now queue.now list.now long result) }
    {
        let Some(q) = self.config.queue_named(queue) else {
            return Err(Refusal::UnknownQueue);
        };
        let printers = self.printers.as_slice();
        let query = StateQuery {
            queue: q,
            list,
            long,
        };
        let text = state_of(&self.config, &self.book, printers, &query)?;
        Ok(text)
    }

    /// The numbers of the jobs that a removal by this agent and list would take, in order of acceptance.
    ///
    /// Closed; UnknownQueue; Memory where memory for the numbers is refused.
    pub fn chosen(&self, queue: &[u8], agent: &[u8], list: &[Octets]) -> Result<Vec<u64>, Refusal>
        ensures { IsRight self.now (λ d b h.
            Chooses d b h self.now queue.now agent.now list.now result) }
    {
        if self.closed {
            return Err(Refusal::Closed);
        }
        let Some(q) = self.config.queue_named(queue) else {
            return Err(Refusal::UnknownQueue);
        };
        let numbers = self.book.chosen(q, agent, list)?;
        Ok(numbers)
    }

    /// What a removal by this agent and list takes of a queue: its jobs, or its active job alone where the list is empty.
    ///
    /// Closed; UnknownQueue; Memory where memory for the text or for the numbers of the jobs is refused.
    pub fn removal_of(
        &self,
        queue: &[u8],
        agent: &[u8],
        list: &[Octets],
    ) -> Result<Removal, Refusal>
        ensures answer { IsRight self.now (λ d b h.
            FindsRemoval d b h self.now queue.now agent.now list.now result) }
        ensures takes { IfOk result (λ r. IsRight self.now (λ d b h.
            MayRemove d b h self.now r.queue r.numbers.items)) }
    {
        if self.closed {
            return Err(Refusal::Closed);
        }
        let Some(q) = self.config.queue_named(queue) else {
            return Err(Refusal::UnknownQueue);
        };
        let text = self.book.removal(q, agent, list)?;
        let numbers = self.book.chosen(q, agent, list)?;
        Ok(Removal {
            queue: q,
            numbers,
            text: Octets::from_vec(text),
        })
    }

    /// Removes the jobs that `removal_of` or `removable` answered. Where there are none nothing changes.
    pub fn remove_chosen(&mut self, queue: u32, numbers: &[u64])
        requires { IsRight self.old (λ d b h. MayRemove d b h self.old queue numbers.now) }
        ensures config { self.new.config ≡ self.old.config }
        ensures answer { IsRight self.old (λ d b h.
            RemovesJobs d b h self.old queue numbers.now self.new) }
    {
        if numbers.is_empty() {
            return;
        }
        end_listed(&mut self.book, &mut self.pool, &mut self.table, numbers);
    }

    /// Removes the jobs of a queue that an agent removes by a list, or its active job alone where the list is empty, and
    /// answers the text that tells of them.
    ///
    /// Closed; UnknownQueue; Memory where memory for the text is refused. Nothing changes then.
    pub fn remove(&mut self, queue: &[u8], agent: &[u8], list: &[Octets]) -> Result<Octets, Refusal>
        ensures config { self.new.config ≡ self.old.config }
        ensures answer { IsRight self.old (λ d b h.
            Removes d b h self.old queue.now agent.now list.now self.new result) }
    {
        let removal = self.removal_of(queue, agent, list)?;
        self.remove_chosen(removal.queue, removal.numbers.as_slice());
        Ok(removal.text)
    }
}
