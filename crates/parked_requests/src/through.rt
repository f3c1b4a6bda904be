//! A spool through which each job goes.

ghost use Rattle.std.specs.Prelude.{◌≡◌, false};

use crate::parks::Parks;
use control_file::Control;
use lpd_values::{FileName, Octets, Refusal};
use page_pool::{FilledPage, PageTicket};
use request_calls::{Asked, Receipt, Requests, ReturnedControl, ReturnedPage, ReturnedTicket};

/// A spool through which each job goes.
#[derive(Drop)]
pub struct Through<Q> {
    pub inner: Q,
}

impl<Q: Requests> Requests for Through<Q> {
    ghost carries = { λ old sender job r answer new. Q.carries old.inner sender job r answer new.inner };

    ghost ends = { λ old job page new. Q.ends old.inner job page new.inner };

    fn admits(&mut self, queue: &[u8]) -> Result<(), Refusal> {
        self.inner.admits(queue)
    }

    fn open(&mut self, sender: u32, queue: &[u8]) -> Result<u64, Refusal> {
        self.inner.open(sender, queue)
    }

    fn begin_file(&mut self, job: u64, name: FileName, count: u64) -> Result<(), Refusal> {
        self.inner.begin_file(job, name, count)
    }

    fn ask(&mut self, job: u64) -> Result<Asked, Refusal> {
        self.inner.ask(job)
    }

    fn put(&mut self, job: u64, page: FilledPage) -> Result<(), ReturnedPage> {
        self.inner.put(job, page)
    }

    fn end_file(&mut self, job: u64) -> Result<Receipt, Refusal> {
        self.inner.end_file(job)
    }

    fn control(&mut self, job: u64, control: Control) -> Result<Receipt, ReturnedControl> {
        self.inner.control(job, control)
    }

    fn abort(&mut self, job: u64, ticket: Option<PageTicket>) -> Result<(), ReturnedTicket> {
        self.inner.abort(job, ticket)
    }

    fn start(&mut self, queue: &[u8]) -> Result<(), Refusal> {
        self.inner.start(queue)
    }

    fn state(&mut self, queue: &[u8], list: &[Octets], long: bool) -> Result<Octets, Refusal> {
        self.inner.state(queue, list, long)
    }

    fn remove(&mut self, queue: &[u8], agent: &[u8], list: &[Octets]) -> Result<Octets, Refusal> {
        self.inner.remove(queue, agent, list)
    }
}

impl<Q: Requests> Parks for Through<Q> {
    ghost beside = { λ _. false };

    fn is_beside(&self) -> bool {
        false
    }
}
