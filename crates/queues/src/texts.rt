//! The texts that tell of held jobs, for a queue's state and a removal.

ghost use Rattle.std.specs.Prelude.{◌≡◌, IfOk};
ghost use Rattle.lpd_values.specs.Texts as T;
ghost use Rattle.held_jobs.specs.Told.{told_in};
ghost use Rattle.held_jobs.specs.Turns.{facts_in};

use crate::book::Book;
use lpd_values::Octets;
use std::alloc::AllocError;
use told_jobs::{Shown, StateQuery, listing, removal_text, state_text};

impl Book {
    /// The lines of the jobs of a queue that a list chooses, of all listed ones where it is empty; in the long form with a
    /// line for each file that a job prints.
    ///
    /// AllocError where memory for them is refused.
    pub fn listing(&self, queue: u32, list: &[Octets], long: bool) -> Result<Vec<u8>, AllocError>
        ensures { IfOk result (λ text. text.items
            ≡ T.listing told_in queue list.now long (facts_in self.now.jobs)) }
    {
        let query = StateQuery { queue, list, long };
        listing(self.alloc(), self, &query)
    }

    /// What a queue's state is answered with, where the queue has this name, so many printers serve it and so many of them
    /// are stopped: a line for the queue, and then its listing.
    ///
    /// AllocError where memory for it is refused.
    pub fn state(
        &self,
        queue: u32,
        name: &[u8],
        printers: usize,
        stopped: usize,
        list: &[Octets],
        long: bool,
    ) -> Result<Vec<u8>, AllocError>
        ensures { IfOk result (λ text. text.items
            ≡ T.state_text told_in queue name.now printers stopped list.now long
            (facts_in self.now.jobs)) }
    {
        let query = StateQuery { queue, list, long };
        let shown = Shown {
            name,
            serving: printers,
            stopped,
        };
        state_text(self.alloc(), self, &query, &shown)
    }

    /// What a removal is answered with: a line for each job that the agent removes by the list, or of the active job alone
    /// where it is empty; or a line that nothing was removed.
    ///
    /// AllocError where memory for it is refused.
    pub fn removal(&self, queue: u32, agent: &[u8], list: &[Octets]) -> Result<Vec<u8>, AllocError>
        ensures { IfOk result (λ text. text.items
            ≡ T.removal_text told_in queue agent.now list.now (facts_in self.now.jobs)) }
    {
        removal_text(self.alloc(), self, queue, agent, list)
    }
}
