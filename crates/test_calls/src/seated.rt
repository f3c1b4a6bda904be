//! The seats of a spool that threads share, used by one thread, one after another.

use crate::spool::Spool;
use lpd_commands::Refusal;
use page_pool::PageTicket;
use receiver::Need;
use request_calls::{Outcome, Requests, ReturnedTicket, carry_out};
use session::{Seated, SessionSeat, SharedSpool};
use shared_spool::{PrinterSeat, SpoolLedger};
use spool_core::{Asked, Foreign, HandedPage, Next, Pages, Progress, Unremoved, Vacancy};
use std::sync::Wait;
use std::sync::ledger::Ledger;

/// A spool that threads share, with a session's seat for requests, another for all else, and those of its printers.
#[derive(Drop)]
pub struct Seats<'a, R: Wait, E: SpoolLedger, K: Ledger, H: Ledger> {
    pub rt: &'a R,
    pub spool: &'a SharedSpool<E, K, H>,
    pub calls: Seated<'a, R, E, K, H>,
    pub operator: SessionSeat<E, K, H>,
    pub printers: Vec<PrinterSeat<E, K, H>>,
}

/// The seat of the printer of a number.
fn seat_of<E: SpoolLedger, K: Ledger, H: Ledger>(
    printers: &mut [PrinterSeat<E, K, H>],
    printer: u32,
) -> Option<&mut PrinterSeat<E, K, H>> {
    printers.iter_mut().find(|seat| seat.printer() == printer)
}

impl<'a, R: Wait, E: SpoolLedger, K: Ledger, H: Ledger> Spool for Seats<'a, R, E, K, H> {
    fn carry_out(&mut self, sender: u32, job: u64, request: Need) -> Outcome {
        carry_out(&mut self.calls, sender, job, request)
    }

    fn abort(&mut self, job: u64, ticket: Option<PageTicket>) -> Result<(), ReturnedTicket> {
        self.calls.abort(job, ticket)
    }

    fn ask(&mut self, job: u64) -> Result<Asked, Refusal> {
        self.spool.ask(self.rt, &mut self.operator, job)
    }

    fn next(&mut self, printer: u32) -> Next {
        match seat_of(self.printers.as_mut_slice(), printer) {
            Some(seat) => self.spool.next(self.rt, seat),
            None => Next::Closed,
        }
    }

    fn take_back(
        &mut self,
        printer: u32,
        page: HandedPage,
        is_printed: bool,
    ) -> Result<Progress, Foreign> {
        let Some(seat) = seat_of(self.printers.as_mut_slice(), printer) else {
            return Err(Foreign { page });
        };
        if is_printed {
            return self.spool.printed(self.rt, seat, page);
        }
        self.spool.failed(self.rt, seat, page)?;
        Ok(Progress::Ended)
    }

    fn remove_jobs(&mut self, queue: &[u8], numbers: &[u64]) -> Result<u32, Unremoved> {
        self.spool
            .remove_jobs(self.rt, &mut self.operator, queue, numbers)
    }

    fn close(&mut self) {
        self.spool.close(self.rt, &mut self.operator)
    }

    fn counts(&mut self) -> (usize, Pages, Vacancy) {
        let held = self.spool.held(self.rt, &mut self.operator);
        (held, self.spool.pages(self.rt), self.spool.vacancy(self.rt))
    }
}
