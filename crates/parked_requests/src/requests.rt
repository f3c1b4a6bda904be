//! Requests are carried out by the spool, or beside it.

ghost use Rattle.std.specs.Prelude.{◌≡◌, None, Some, MatchResult};

use crate::parking::Parking;
use crate::parks::Parks;
use crate::ways::{JobWays, is_full};
use control_file::Control;
use lpd_values::{FileName, Octets, Refusal};
use page_pool::{FilledPage, PageTicket};
use request_calls::{Asked, Receipt, Requests, ReturnedControl, ReturnedPage, ReturnedTicket};

/// What a control file has come to that was taken; None where it was refused.
fn receipt_in(answer: &Result<Receipt, ReturnedControl>) -> Option<Receipt>
    ensures { MatchResult answer.now (λ receipt. result ≡ Some receipt) (λ _. result ≡ None) }
{
    match answer {
        Ok(receipt) => Some(*receipt),
        Err(_) => None,
    }
}

impl<Q: Requests, W: JobWays> Requests for Parking<Q, W> {
    ghost use Rattle.parked_requests.specs.Carried.{Carries, Ends};

    ghost carries = { Carries Q.carries W.told };

    ghost ends = { Ends Q.ends W.told };

    fn admits(&mut self, queue: &[u8]) -> Result<(), Refusal> {
        match self.inner.admits(queue) {
            Err(refusal) if is_full(refusal) => Ok(()),
            answer => answer,
        }
    }

    fn open(&mut self, sender: u32, queue: &[u8]) -> Result<u64, Refusal> {
        self.let_go();
        match self.ways.open(&mut self.inner, sender, queue) {
            Ok(opened) => Ok(self.hand.begin(opened)),
            Err(refusal) => Err(refusal),
        }
    }

    fn begin_file(&mut self, job: u64, name: FileName, count: u64) -> Result<(), Refusal> {
        if self.hand.is_beside {
            return self.hand.begin_file(name, count);
        }
        if self.turns_aside(job) {
            return self.hand.begin_file(name, count);
        }
        let answer = self.inner.begin_file(job, name, count);
        if answer.is_ok() {
            self.hand.follow_file(name, count);
        }
        answer
    }

    fn ask(&mut self, job: u64) -> Result<Asked, Refusal> {
        if self.hand.is_beside {
            return self.hand.ask();
        }
        if self.turns_aside(job) {
            return self.hand.ask();
        }
        self.inner.ask(job)
    }

    fn put(&mut self, job: u64, page: FilledPage) -> Result<(), ReturnedPage> {
        if self.hand.is_beside {
            return self.hand.put(page);
        }
        self.inner.put(job, page)
    }

    fn end_file(&mut self, job: u64) -> Result<Receipt, Refusal> {
        if self.hand.is_beside {
            let answer = self.hand.end_file();
            self.settle(answer.ok());
            return answer;
        }
        let answer = self.inner.end_file(job);
        self.hand.follow_end();
        self.settle(answer.ok());
        answer
    }

    fn control(&mut self, job: u64, control: Control) -> Result<Receipt, ReturnedControl> {
        if self.hand.is_beside {
            let answer = self.hand.control(control);
            self.settle(receipt_in(&answer));
            return answer;
        }
        self.hand.follow_control(&control);
        let answer = self.inner.control(job, control);
        self.settle(receipt_in(&answer));
        answer
    }

    fn abort(&mut self, job: u64, ticket: Option<PageTicket>) -> Result<(), ReturnedTicket> {
        self.let_go();
        if self.hand.is_beside {
            self.hand.take_back(ticket);
            return Ok(());
        }
        self.inner.abort(job, ticket)
    }

    fn start(&mut self, queue: &[u8]) -> Result<(), Refusal> {
        self.inner.start(queue)
    }

    fn state(&mut self, queue: &[u8], list: &[Octets], long: bool) -> Result<Octets, Refusal> {
        match self.inner.state(queue, list, long) {
            Ok(text) => Ok(self.ways.with_parked(queue, list, long, text)),
            Err(refusal) => Err(refusal),
        }
    }

    fn remove(&mut self, queue: &[u8], agent: &[u8], list: &[Octets]) -> Result<Octets, Refusal> {
        match self.inner.remove(queue, agent, list) {
            Ok(text) => Ok(self.ways.remove_parked(queue, agent, list, text)),
            Err(refusal) => Err(refusal),
        }
    }
}

impl<Q: Requests, W: JobWays> Parks for Parking<Q, W> {
    ghost beside = { λ parking. parking.hand.is_beside };

    fn is_beside(&self) -> bool {
        self.hand.is_beside
    }
}
