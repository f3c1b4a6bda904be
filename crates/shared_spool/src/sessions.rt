//! The calls for a job that is being received, through a session's seat.

ghost use Rattle.std.specs.Prelude.{◌≡◌, ◌<◌, IfErr, IfOk};
ghost use Rattle.account.specs.declared.kind.Kind.TheVariants as kind;
ghost use Rattle.spool_core.specs.Tickets.{IsBlank};
ghost use Rattle.locked_spool.specs.Shares.{when_done, when_lent};

use crate::seats::SessionSeat;
use crate::spool::SharedSpool;
use control_file::Control;
use locked_spool::{Asked, Receipt, ReturnedControl, ReturnedPage, ReturnedTicket};
use lpd_values::{FileName, Refusal};
use page_pool::{FilledPage, PageTicket};
use spool_ledgers::SpoolLedger;
use std::sync::Wait;
use std::sync::ledger::Ledger;

impl<E: SpoolLedger, K: Ledger, H: Ledger> SharedSpool<E, K, H> {
    /// Whether a session may send jobs to the queue of a name.
    ///
    /// Closed once the spool is closed; UnknownQueue where no queue has this name.
    pub fn admits<R: Wait>(
        &self,
        rt: &R,
        _seat: &mut SessionSeat<E, K, H>,
        queue: &[u8],
    ) -> Result<(), Refusal>
        ensures { _seat.new ≡ _seat.old }
    {
        self.state.lock(rt).locked.admits(queue)
    }

    /// Accepts a job from a sender for a queue, and answers its number.
    ///
    /// Closed; UnknownQueue; TableFull where as many jobs are held as may be; AccountFull where the account has no room for all
    /// entries of one more job, or no number is left; Memory where memory for the job or for its entries is refused.
    pub fn open<R: Wait>(
        &self,
        rt: &R,
        seat: &mut SessionSeat<E, K, H>,
        sender: u32,
        queue: &[u8],
    ) -> Result<u64, Refusal>
        ensures { seat.new ≡ when_done kind.Opened result seat.old }
    {
        let shares = &mut seat.shares;
        let mut room = self.state.lock(rt);
        let accepted = room.locked.open_telling(shares, sender, queue)?;
        drop(room);
        seat.opened = accepted.job;
        seat.put = 0;
        seat.row = self.bells.row_of(accepted.queue);
        self.changed.notify_all();
        Ok(accepted.job)
    }

    /// Lends a page to a job, which has to come back by `put` or `abort`; or answers Later, where no page is free or the state
    /// would not be safe.
    ///
    /// NotOpen where the job isn't being received, no file of it is open or a page is lent to it; OverClaim where it holds as
    /// many pages as its queue allows.
    pub fn ask<R: Wait>(
        &self,
        rt: &R,
        seat: &mut SessionSeat<E, K, H>,
        job: u64,
    ) -> Result<Asked, Refusal>
        ensures page { IfOk result (IsBlank E.config.page_size) }
        ensures shares { seat.new ≡ when_lent result seat.old }
    {
        let answer = self.state.lock(rt).locked.ask(&mut seat.shares, job);
        self.told(answer)
    }

    /// Begins a data file of so many octets.
    ///
    /// NotOpen where the job isn't being received; FileOpen; NameTaken; FilesFull; OverClaim where the file's pages pass what its
    /// queue allows.
    pub fn begin_file<R: Wait>(
        &self,
        rt: &R,
        seat: &mut SessionSeat<E, K, H>,
        job: u64,
        name: FileName,
        count: u64,
    ) -> Result<(), Refusal>
        requires { 0 < count }
        ensures { seat.new ≡ when_done kind.Began result seat.old }
    {
        let shares = &mut seat.shares;
        let answer = self
            .state
            .lock(rt)
            .locked
            .begin_file(shares, job, name, count);
        if answer.is_ok() {
            seat.lacks = count;
        }
        self.told(answer)
    }

    /// Puts the next page of a job's open file.
    ///
    /// Refused, with the page, where the job doesn't await it.
    pub fn put<R: Wait>(
        &self,
        rt: &R,
        seat: &mut SessionSeat<E, K, H>,
        job: u64,
        page: FilledPage,
    ) -> Result<(), ReturnedPage>
        ensures back { IfErr result (λ e. e.page ≡ page) }
        ensures shares { seat.new ≡ when_done kind.Put result seat.old }
    {
        let octets = page.len() as u64;
        let answer = self.state.lock(rt).locked.put(&mut seat.shares, job, page);
        if answer.is_ok() {
            seat.lacks = seat.lacks.saturating_sub(octets);
            seat.put = seat.put.saturating_add(octets);
        }
        self.told(answer)
    }

    /// Ends the open file of a job, and says whether the job is whole by that.
    ///
    /// NotOpen where the job isn't being received, no file of it is open, a page is lent to it, or the file lacks pages.
    pub fn end_file<R: Wait>(
        &self,
        rt: &R,
        seat: &mut SessionSeat<E, K, H>,
        job: u64,
    ) -> Result<Receipt, Refusal>
        ensures { seat.new ≡ when_done kind.FileEnded result seat.old }
    {
        let row = seat.row_for(job);
        let mut room = self.state.lock(rt);
        let answer = room.locked.end_file(&mut seat.shares, job);
        let calls = self.calls_after(&mut *room, row, &answer);
        drop(room);
        self.ring(calls);
        self.told(answer)
    }

    /// Takes the control file of a job, and says whether the job is whole by that.
    ///
    /// Refused, with the control file: NotOpen where the job isn't being received; ControlTwice where it has one; Memory where
    /// memory for the account's copy is refused.
    pub fn control<R: Wait>(
        &self,
        rt: &R,
        seat: &mut SessionSeat<E, K, H>,
        job: u64,
        control: Control,
    ) -> Result<Receipt, ReturnedControl>
        ensures back { IfErr result (λ e. e.control ≡ control) }
        ensures shares { seat.new ≡ when_done kind.Controlled result seat.old }
    {
        let row = seat.row_for(job);
        let mut room = self.state.lock(rt);
        let answer = room.locked.control(&mut seat.shares, job, control);
        let calls = self.calls_after(&mut *room, row, &answer);
        drop(room);
        self.ring(calls);
        self.told(answer)
    }

    /// Ends a job that is being received, or takes back the page that was lent to one that has ended.
    ///
    /// Refused, with the page, where the job is neither, or where a page is given though none is lent, none though one is, or
    /// one of another size.
    pub fn abort<R: Wait>(
        &self,
        rt: &R,
        seat: &mut SessionSeat<E, K, H>,
        job: u64,
        ticket: Option<PageTicket>,
    ) -> Result<(), ReturnedTicket>
        ensures back { IfErr result (λ e. e.ticket ≡ ticket) }
        ensures shares { seat.new ≡ when_done kind.Aborted result seat.old }
    {
        let row = seat.row_for(job).unwrap_or(self.all_printers());
        let mut room = self.state.lock(rt);
        let answer = room.locked.abort(&mut seat.shares, job, ticket);
        if answer.is_ok() {
            self.ring_all(&mut *room, row);
            drop(room);
            self.changed.notify_all();
        }
        answer
    }
}
