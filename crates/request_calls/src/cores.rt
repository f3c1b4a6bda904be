//! A core carries out requests: each answer is the one that is due, and its history grows by the
//! event that the request shows.

use crate::requests::Requests;
use control_file::Control;
use lpd_values::{FileName, Octets, Refusal};
use page_pool::{FilledPage, PageTicket};
use spool_core::{Asked, Core, Receipt, ReturnedControl, ReturnedPage, ReturnedTicket};

impl Requests for Core {
    ghost use Rattle.request_calls.specs.Carried.{Carries, Ends};

    ghost carries = { Carries };

    ghost ends = { Ends };

    fn admits(&mut self, queue: &[u8]) -> Result<(), Refusal> {
        Core::admits(self, queue)
    }

    fn open(&mut self, sender: u32, queue: &[u8]) -> Result<u64, Refusal> {
        Core::open(self, sender, queue)
    }

    fn begin_file(&mut self, job: u64, name: FileName, count: u64) -> Result<(), Refusal> {
        Core::begin_file(self, job, name, count)
    }

    fn ask(&mut self, job: u64) -> Result<Asked, Refusal> {
        Core::ask(self, job)
    }

    fn put(&mut self, job: u64, page: FilledPage) -> Result<(), ReturnedPage> {
        Core::put(self, job, page)
    }

    fn end_file(&mut self, job: u64) -> Result<Receipt, Refusal> {
        Core::end_file(self, job)
    }

    fn control(&mut self, job: u64, control: Control) -> Result<Receipt, ReturnedControl> {
        Core::control(self, job, control)
    }

    fn abort(&mut self, job: u64, ticket: Option<PageTicket>) -> Result<(), ReturnedTicket> {
        Core::abort(self, job, ticket)
    }

    fn start(&mut self, queue: &[u8]) -> Result<(), Refusal> {
        Core::start(self, queue)
    }

    fn state(&mut self, queue: &[u8], list: &[Octets], long: bool) -> Result<Octets, Refusal> {
        Core::state(self, queue, list, long)
    }

    fn remove(&mut self, queue: &[u8], agent: &[u8], list: &[Octets]) -> Result<Octets, Refusal> {
        Core::remove(self, queue, agent, list)
    }
}
