//! The calls of a printer, through its seat.

ghost use Rattle.std.specs.Prelude.{◌≡◌, ◌≢◌, ◌<◌, ◌^◌, IfErr};
ghost use Rattle.account.specs.declared.kind.Kind.TheVariants as kind;
ghost use Rattle.spool_calls.specs.declared.answers.Next.TheVariants as next;
ghost use Rattle.shared_spool.specs.Seats.{back_desk, is_out_after, next_desk};

use crate::line::Calls;
use crate::seats::PrinterSeat;
use crate::spool::SharedSpool;
use locked_spool::{Foreign, HandedPage, Next, Progress};
use spool_ledgers::SpoolLedger;
use std::sync::Wait;
use std::sync::ledger::Ledger;

impl<E: SpoolLedger, K: Ledger, H: Ledger> SharedSpool<E, K, H> {
    /// A page that was handed is out at its seat, and others are told.
    pub(crate) fn hands(&self, seat: &mut PrinterSeat<E, K, H>, answer: &Next)
        ensures { seat.new ≡ record seat.old { is_out = is_out_after answer.now seat.old.is_out } }
    {
        if let Next::Handed(_) = answer {
            seat.is_out = true;
            self.changed.notify_all();
        }
    }

    /// Gives the seat's printer its next page: the next place of the job that it began, while that hasn't ended, or else the
    /// first of the first job of its queue that is ready.
    ///
    /// Closed; Stopped where a page failed at the printer and its queue wasn't started since; Busy while a page is out at it;
    /// Nothing where no page is next for it.
    pub fn next<R: Wait>(&self, rt: &R, seat: &mut PrinterSeat<E, K, H>) -> Next
        ensures seat { seat.new ≡ next_desk result seat.old }
        // No share has more hand-outs than a number holds.
        ensures bound { seat.new.sums.handed < 2 ^ 64 }
    {
        let printer = seat.printer;
        let answer = self.state.lock(rt).locked.next(&mut seat.shares, printer);
        self.hands(seat, &answer);
        answer
    }

    /// Gives the seat's printer its next page as `next` does, where its queue isn't held or no job would begin there: what
    /// `next_wait` would give it without waiting.
    ///
    /// Nothing and Stopped where `next_wait` would wait; Closed and Busy as `next`.
    pub fn next_at_once<R: Wait>(&self, rt: &R, seat: &mut PrinterSeat<E, K, H>) -> Next
        ensures seat { seat.new ≡ next_desk result seat.old }
        ensures bound { result ≢ next.Nothing → seat.new.sums.handed < 2 ^ 64 }
    {
        let printer = seat.printer;
        let mut room = self.state.lock(rt);
        if room.is_put_off(printer) {
            return Next::Nothing;
        }
        // It doesn't stand in the line: who looks so may be long until it waits.
        let answer = room.locked.next(&mut seat.shares, printer);
        drop(room);
        self.hands(seat, &answer);
        answer
    }

    /// Takes back the page that is out at the seat's printer, printed, and says how far its job is.
    ///
    /// Refused, with the page, where it isn't the one that is out at the printer.
    pub fn printed<R: Wait>(
        &self,
        rt: &R,
        seat: &mut PrinterSeat<E, K, H>,
        page: HandedPage,
    ) -> Result<Progress, Foreign>
        ensures seat { seat.new ≡ back_desk kind.Printed result seat.old }
        ensures back { IfErr result (λ e. e.page ≡ page) }
    {
        let printer = seat.printer;
        let row = self.bells.row_with(printer);
        let mut room = self.state.lock(rt);
        let answer = room.locked.printed(&mut seat.shares, printer, page);
        let calls = match &answer {
            Ok(Progress::Going) => room.call_one_session(),
            Ok(_) => room.call(row),
            Err(_) => Calls::default(),
        };
        drop(room);
        self.ring(calls);
        if answer.is_ok() {
            seat.is_out = false;
            self.changed.notify_all();
        }
        answer
    }

    /// Takes back the page that is out at the seat's printer, which failed: its job ends, and the printer stops.
    ///
    /// Refused, with the page, where it isn't the one that is out at the printer.
    pub fn failed<R: Wait>(
        &self,
        rt: &R,
        seat: &mut PrinterSeat<E, K, H>,
        page: HandedPage,
    ) -> Result<(), Foreign>
        ensures seat { seat.new ≡ back_desk kind.Failed result seat.old }
        ensures back { IfErr result (λ e. e.page ≡ page) }
    {
        let printer = seat.printer;
        let row = self.bells.row_with(printer);
        let mut room = self.state.lock(rt);
        let answer = room.locked.failed(&mut seat.shares, printer, page);
        if answer.is_ok() {
            let calls = room.call(row);
            drop(room);
            self.ring(calls);
            seat.is_out = false;
            self.changed.notify_all();
        }
        answer
    }
}
