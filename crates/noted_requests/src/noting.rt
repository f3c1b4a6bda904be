//! What carries out requests, with who is told of their jobs.

ghost use Rattle.std.specs.Prelude.{◌≡◌};

use crate::notes::JobNotes;
use control_file::Control;
use lpd_values::{FileName, Octets, Refusal};
use page_pool::{FilledPage, PageTicket};
use request_calls::{Asked, Receipt, Requests, ReturnedControl, ReturnedPage, ReturnedTicket};

/// What carries out a session's requests, with who is told what becomes of its jobs. Each request is carried out as below, and
/// answered so.
#[derive(Drop)]
pub struct Noting<Q, N> {
    /// What carries out the requests.
    pub inner: Q,
    /// Who is told.
    pub notes: N,
}

impl<Q, N> Noting<Q, N> {
    /// Tells these notes of the jobs whose requests this carries out.
    pub fn new(inner: Q, notes: N) -> Noting<Q, N>
        ensures inner { result.inner ≡ inner }
        ensures notes { result.notes ≡ notes }
    {
        Noting { inner, notes }
    }
}

impl<Q: Requests, N: JobNotes> Requests for Noting<Q, N> {
    ghost carries = { λ old sender job request answer new.
        Q.carries old.inner sender job request answer new.inner };

    ghost ends = { λ old job page new. Q.ends old.inner job page new.inner };

    fn admits(&mut self, queue: &[u8]) -> Result<(), Refusal> {
        self.notes.asked_for(queue);
        self.inner.admits(queue)
    }

    fn open(&mut self, sender: u32, queue: &[u8]) -> Result<u64, Refusal> {
        self.notes.asked_for(queue);
        let answer = self.inner.open(sender, queue);
        if let Ok(job) = answer {
            self.notes.opened(job, sender, queue);
        }
        answer
    }

    fn begin_file(&mut self, job: u64, name: FileName, count: u64) -> Result<(), Refusal> {
        self.notes.file_asked(count);
        let answer = self.inner.begin_file(job, name, count);
        if answer.is_ok() {
            self.notes.file_began(job, &name);
        }
        answer
    }

    fn ask(&mut self, job: u64) -> Result<Asked, Refusal> {
        self.inner.ask(job)
    }

    fn put(&mut self, job: u64, page: FilledPage) -> Result<(), ReturnedPage> {
        let octets = page.len();
        let answer = self.inner.put(job, page);
        if answer.is_ok() {
            self.notes.page_came(job, octets);
        }
        answer
    }

    fn end_file(&mut self, job: u64) -> Result<Receipt, Refusal> {
        let answer = self.inner.end_file(job);
        if let Ok(Receipt::Received) = answer {
            self.notes.received(job);
        }
        answer
    }

    fn control(&mut self, job: u64, control: Control) -> Result<Receipt, ReturnedControl> {
        self.notes.controlled(job, &control);
        let answer = self.inner.control(job, control);
        if let Ok(Receipt::Received) = &answer {
            self.notes.received(job);
        }
        answer
    }

    fn abort(&mut self, job: u64, ticket: Option<PageTicket>) -> Result<(), ReturnedTicket> {
        let answer = self.inner.abort(job, ticket);
        self.notes.given_up(job);
        answer
    }

    fn start(&mut self, queue: &[u8]) -> Result<(), Refusal> {
        self.inner.start(queue)
    }

    fn state(&mut self, queue: &[u8], list: &[Octets], long: bool) -> Result<Octets, Refusal> {
        self.inner.state(queue, list, long)
    }

    fn remove(&mut self, queue: &[u8], agent: &[u8], list: &[Octets]) -> Result<Octets, Refusal> {
        self.inner.remove(queue, agent, list)
    }
}
