//! A spool of which each queue has a part, and no more.

ghost use Rattle.std.specs.Prelude.{◌≡◌, ◌⊎◌, ℕ};

use control_file::Control;
use lpd_values::{FileName, Octets, Refusal};
use page_pool::{FilledPage, PageTicket};
use request_calls::{Asked, Receipt, Requests, ReturnedControl, ReturnedPage, ReturnedTicket};

/// Says whether a job has room in its queue's part.
pub trait QueueParts {
    ghost use Rattle.parked_requests.specs.Parted.{OpensWithin};

    /// A job of this sender for a queue is opened in the spool, where its queue has room in its part. Else it is refused for now, by
    /// TableFull, and the spool isn't asked. Any other refusal is the spool's.
    fn open<Q: Requests>(
        &mut self,
        spool: &mut Q,
        sender: u32,
        queue: &[u8],
    ) -> Result<u64, Refusal>
        ensures { (job : ℕ)
            → OpensWithin Q.carries spool.old sender job queue.now result spool.new };
}

/// A spool of which each queue has a part, and no more.
#[derive(Drop)]
pub struct Parted<Q, P> {
    /// The spool.
    pub inner: Q,
    /// Who says whether a job has room.
    pub parts: P,
}

impl<Q, P: Drop> Parted<Q, P> {
    /// The spool.
    pub fn into_inner(self) -> Q
        ensures { result ≡ self.inner }
    {
        let Parted { inner, parts: _ } = self;
        inner
    }
}

impl<Q: Requests, P: QueueParts> Requests for Parted<Q, P> {
    ghost use Rattle.parked_requests.specs.Parted.{TurnsAway};

    ghost carries = { λ old sender job r answer new.
        Q.carries old.inner sender job r answer new.inner ⊎ TurnsAway r answer old.inner new.inner };

    ghost ends = { λ old job page new. Q.ends old.inner job page new.inner };

    fn admits(&mut self, queue: &[u8]) -> Result<(), Refusal> {
        self.inner.admits(queue)
    }

    fn open(&mut self, sender: u32, queue: &[u8]) -> Result<u64, Refusal> {
        self.parts.open(&mut self.inner, sender, queue)
    }

    fn begin_file(&mut self, job: u64, name: FileName, count: u64) -> Result<(), Refusal> {
        self.inner.begin_file(job, name, count)
    }

    fn ask(&mut self, job: u64) -> Result<Asked, Refusal> {
        self.inner.ask(job)
    }

    fn put(&mut self, job: u64, page: FilledPage) -> Result<(), ReturnedPage> {
        self.inner.put(job, page)
    }

    fn end_file(&mut self, job: u64) -> Result<Receipt, Refusal> {
        self.inner.end_file(job)
    }

    fn control(&mut self, job: u64, control: Control) -> Result<Receipt, ReturnedControl> {
        self.inner.control(job, control)
    }

    fn abort(&mut self, job: u64, ticket: Option<PageTicket>) -> Result<(), ReturnedTicket> {
        self.inner.abort(job, ticket)
    }

    fn start(&mut self, queue: &[u8]) -> Result<(), Refusal> {
        self.inner.start(queue)
    }

    fn state(&mut self, queue: &[u8], list: &[Octets], long: bool) -> Result<Octets, Refusal> {
        self.inner.state(queue, list, long)
    }

    fn remove(&mut self, queue: &[u8], agent: &[u8], list: &[Octets]) -> Result<Octets, Refusal> {
        self.inner.remove(queue, agent, list)
    }
}
