//! A seat with the spool at which it is.

ghost use Rattle.std.specs.Prelude.{◌≡◌};

use control_file::Control;
use lpd_values::{FileName, Octets, Refusal};
use page_pool::{FilledPage, PageTicket};
use request_calls::{Asked, Receipt, Requests, ReturnedControl, ReturnedPage, ReturnedTicket};
use shared_spool::{Removal, SessionSeat, SharedSpool, SpoolLedger};
use std::marker::Model;
use std::sync::Wait;
use std::sync::ledger::Ledger;

/// A session's seat with the spool at which it is. Contracts see what its calls added to the
/// account.
#[derive(Drop)]
pub struct Seated<'a, R, E: SpoolLedger, K: Ledger, H: Ledger> {
    rt: &'a R,
    spool: &'a SharedSpool<E, K, H>,
    seat: SessionSeat<E, K, H>,
    /// Whether it waits for a page that can't be lent now.
    waits: bool,
    /// The numbers of the jobs that its last removal took, until they are asked for.
    removed: Option<Vec<u64>>,
}

impl<'a, R, E: SpoolLedger, K: Ledger, H: Ledger> Model for Seated<'a, R, E, K, H> {
    ghost use Rattle.spool_ledgers.specs.Sums.{Sums};

    ghost Value = { Sums };

    ghost view = { λ s. s.seat };
}

impl<'a, R, E: SpoolLedger, K: Ledger, H: Ledger> Seated<'a, R, E, K, H> {
    /// A seat at this spool.
    pub fn new(
        rt: &'a R,
        spool: &'a SharedSpool<E, K, H>,
        seat: SessionSeat<E, K, H>,
    ) -> Seated<'a, R, E, K, H>
        ensures { result ≡ seat }
    {
        Seated {
            rt,
            spool,
            seat,
            waits: true,
            removed: None,
        }
    }

    /// A seat at this spool that waits for no page: where none can be lent now, that is refused by TableFull.
    pub fn at_once(
        rt: &'a R,
        spool: &'a SharedSpool<E, K, H>,
        seat: SessionSeat<E, K, H>,
    ) -> Seated<'a, R, E, K, H>
        ensures { result ≡ seat }
    {
        Seated {
            rt,
            spool,
            seat,
            waits: false,
            removed: None,
        }
    }

    /// The numbers of the jobs that its last removal took, in order of acceptance: each removal's are
    /// told once.
    pub fn take_removed(&mut self) -> Option<Vec<u64>>
        ensures { self.new ≡ self.old }
    {
        self.removed.take()
    }

    /// The seat.
    pub fn into_seat(self) -> SessionSeat<E, K, H>
        ensures { result ≡ self.entry }
    {
        let Seated { seat, .. } = self;
        seat
    }
}

impl<R: Wait, E: SpoolLedger, K: Ledger, H: Ledger> Requests for Seated<'_, R, E, K, H> {
    ghost use Rattle.session.specs.Seated.{Carries, Ends};

    ghost carries = { Carries };

    ghost ends = { Ends };

    fn admits(&mut self, queue: &[u8]) -> Result<(), Refusal> {
        self.spool.admits(self.rt, &mut self.seat, queue)
    }

    fn open(&mut self, sender: u32, queue: &[u8]) -> Result<u64, Refusal> {
        self.spool.open(self.rt, &mut self.seat, sender, queue)
    }

    fn begin_file(&mut self, job: u64, name: FileName, count: u64) -> Result<(), Refusal> {
        self.spool
            .begin_file(self.rt, &mut self.seat, job, name, count)
    }

    fn ask(&mut self, job: u64) -> Result<Asked, Refusal> {
        if self.waits {
            return self.spool.ask_wait(self.rt, &mut self.seat, job);
        }
        match self.spool.ask(self.rt, &mut self.seat, job) {
            Ok(Asked::Later) => Err(Refusal::TableFull),
            answer => answer,
        }
    }

    fn put(&mut self, job: u64, page: FilledPage) -> Result<(), ReturnedPage> {
        self.spool.put(self.rt, &mut self.seat, job, page)
    }

    fn end_file(&mut self, job: u64) -> Result<Receipt, Refusal> {
        self.spool.end_file(self.rt, &mut self.seat, job)
    }

    fn control(&mut self, job: u64, control: Control) -> Result<Receipt, ReturnedControl> {
        self.spool.control(self.rt, &mut self.seat, job, control)
    }

    fn abort(&mut self, job: u64, ticket: Option<PageTicket>) -> Result<(), ReturnedTicket> {
        self.spool.abort(self.rt, &mut self.seat, job, ticket)
    }

    fn start(&mut self, queue: &[u8]) -> Result<(), Refusal> {
        self.spool.start(self.rt, &mut self.seat, queue)
    }

    fn state(&mut self, queue: &[u8], list: &[Octets], long: bool) -> Result<Octets, Refusal> {
        self.spool.state(self.rt, &mut self.seat, queue, list, long)
    }

    fn remove(&mut self, queue: &[u8], agent: &[u8], list: &[Octets]) -> Result<Octets, Refusal> {
        let removal = self
            .spool
            .remove_telling(self.rt, &mut self.seat, queue, agent, list)?;
        let Removal { numbers, text, .. } = removal;
        self.removed = Some(numbers);
        Ok(text)
    }
}
