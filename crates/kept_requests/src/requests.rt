//! Requests are carried out by the spool below, and what they bring of a job is kept.

use crate::keeping::Keeping;
use control_file::Control;
use job_hand::{Cause, Folder, HandStage};
use lpd_values::{FileName, Octets, Refusal};
use page_pool::{FilledPage, PageTicket};
use parked_requests::Parks;
use request_calls::{Asked, Receipt, Requests, ReturnedControl, ReturnedPage, ReturnedTicket};

impl<Q: Parks, F: Folder> Requests for Keeping<Q, F> {
    ghost use Rattle.kept_requests.specs.Carried.{Carries, Ends};

    ghost carries = { Carries Q.carries Q.beside F.seen F.may_leave F.moment F.left_since F.may_lack };

    ghost ends = { Ends Q.ends F.seen F.may_leave F.moment F.left_since F.may_lack };

    fn admits(&mut self, queue: &[u8]) -> Result<(), Refusal> {
        self.inner.admits(queue)
    }

    fn open(&mut self, sender: u32, queue: &[u8]) -> Result<u64, Refusal> {
        let answer = self.inner.open(sender, queue);
        if answer.is_ok() {
            self.hand.begin(sender, queue);
        }
        answer
    }

    fn begin_file(&mut self, job: u64, name: FileName, count: u64) -> Result<(), Refusal> {
        if let HandStage::Broken(cause) = self.hand.stage {
            self.give_up(job, cause);
            return Err(Refusal::NotOpen);
        }
        let answer = self.inner.begin_file(job, name, count);
        if answer.is_ok() {
            self.hand.begin_file(name, count);
        }
        answer
    }

    fn ask(&mut self, job: u64) -> Result<Asked, Refusal> {
        if let HandStage::Broken(cause) = self.hand.stage {
            self.give_up(job, cause);
            return Err(Refusal::NotOpen);
        }
        self.inner.ask(job)
    }

    fn put(&mut self, job: u64, page: FilledPage) -> Result<(), ReturnedPage> {
        self.hand.put(page.bytes(), Some(page.digest()));
        let answer = self.inner.put(job, page);
        if answer.is_err() {
            self.hand.fail(Cause::Refused);
        }
        answer
    }

    fn end_file(&mut self, job: u64) -> Result<Receipt, Refusal> {
        self.hand.end_file();
        // A printer may end the job as soon as the spool below is told.
        self.hand.keep_whole();
        if let HandStage::Broken(cause) = self.hand.stage {
            self.give_up(job, cause);
            return Err(Refusal::NotOpen);
        }
        let answer = self.inner.end_file(job);
        if answer.is_ok() {
            self.let_out(job);
        } else {
            self.hand.fail(Cause::Refused);
        }
        answer
    }

    fn control(&mut self, job: u64, control: Control) -> Result<Receipt, ReturnedControl> {
        self.hand.control(&control);
        // A printer may end the job as soon as the spool below is told.
        self.hand.keep_whole();
        if let HandStage::Broken(cause) = self.hand.stage {
            self.give_up(job, cause);
            return Err(ReturnedControl {
                control,
                refusal: Refusal::NotOpen,
            });
        }
        let answer = self.inner.control(job, control);
        if answer.is_ok() {
            self.let_out(job);
        } else {
            self.hand.fail(Cause::Refused);
        }
        answer
    }

    fn abort(&mut self, job: u64, ticket: Option<PageTicket>) -> Result<(), ReturnedTicket> {
        self.hand.let_go();
        let answer = self.inner.abort(job, ticket);
        if answer.is_err() {
            self.hand.fail(Cause::Refused);
        }
        answer
    }

    fn start(&mut self, queue: &[u8]) -> Result<(), Refusal> {
        self.inner.start(queue)
    }

    fn state(&mut self, queue: &[u8], list: &[Octets], long: bool) -> Result<Octets, Refusal> {
        self.inner.state(queue, list, long)
    }

    fn remove(&mut self, queue: &[u8], agent: &[u8], list: &[Octets]) -> Result<Octets, Refusal> {
        self.inner.remove(queue, agent, list)
    }
}
