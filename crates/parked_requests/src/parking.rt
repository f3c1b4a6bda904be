//! A session's requests, with the way that its job goes.

ghost use Rattle.std.specs.Prelude.{◌≡◌, ◌<◌, ℕ, None, true, false, IsSome, IsTrue, if◌then◌else◌};
ghost use Rattle.receiver.specs.Script.{AbortJob};
ghost use Rattle.spool_requests.specs.declared.answer.Answer.{Answer};

use crate::in_hand::JobInHand;
use crate::ways::JobWays;
use request_calls::{Receipt, Requests};
use std::alloc::Global;

/// What carries out a session's requests, where each of its jobs goes through the spool or beside it.
#[derive(Drop)]
pub struct Parking<Q, W> {
    /// The spool.
    pub inner: Q,
    /// Who chooses the way of each job, and is told what becomes of it.
    pub ways: W,
    /// The job that the session has in hand.
    pub hand: JobInHand,
}

impl<Q, W> Parking<Q, W> {
    /// At the beginning of a session, with no job in hand. Pages have so many octets, also those of jobs that come beside the spool.
    pub fn new(alloc: Global, page_size: u32, inner: Q, ways: W) -> Parking<Q, W>
        requires { 0 < page_size }
        ensures inner { result.inner ≡ inner }
        ensures ways { result.ways ≡ ways }
        ensures none { result.hand.job ≡ None }
        ensures through { result.hand.is_beside ≡ false }
        ensures page { result.hand.page.page_size ≡ page_size }
    {
        Parking {
            inner,
            ways,
            hand: JobInHand::new(alloc, page_size),
        }
    }
}

impl<Q, W: JobWays> Parking<Q, W> {
    ghost use Rattle.parked_requests.specs.Hand.{still_in_hand, tells_gone, tells_receipt};

    /// No job is in hand any more, as at a session's end. Where one still is, the ways are told that it is gone.
    pub fn let_go(&mut self)
        ensures inner { self.new.inner ≡ self.old.inner }
        ensures hand { self.new.hand ≡ record self.old.hand { job = None } }
        ensures told { W.told self.new.ways
            ≡ tells_gone self.old.hand.job (W.told self.old.ways) }
    {
        if self.hand.job.take().is_some() {
            self.ways.gone();
        }
    }

    /// Tells the ways of the job in hand what a data file or a control file has come to that was taken, or was refused: None.
    pub(crate) fn settle(&mut self, receipt: Option<Receipt>)
        ensures inner { self.new.inner ≡ self.old.inner }
        ensures hand { self.new.hand
            ≡ record self.old.hand { job = still_in_hand receipt self.old.hand.job } }
        ensures told { W.told self.new.ways
            ≡ tells_receipt receipt self.old.hand.job (W.told self.old.ways) }
    {
        match receipt {
            Some(Receipt::Stored) => {}
            Some(Receipt::Received) => {
                if let Some(job) = self.hand.job.take() {
                    self.ways.kept(job.octets(), job.pages());
                }
            }
            None => self.let_go(),
        }
    }
}

impl<Q, W: Drop> Parking<Q, W> {
    /// The spool.
    pub fn into_inner(self) -> Q
        ensures { result ≡ self.inner }
    {
        let Parking {
            inner,
            ways: _,
            hand: _,
        } = self;
        inner
    }
}

impl<Q: Requests, W: JobWays> Parking<Q, W> {
    /// Whether the job in hand, which comes through the spool, goes on beside it from now on. Then it is aborted there.
    pub(crate) fn turns_aside(&mut self, job: u64) -> bool
        ensures hand { self.new.hand
            ≡ (if result then record self.old.hand { is_beside = true } else self.old.hand) }
        ensures known { IsTrue result → IsSome self.old.hand.job × (self.old.hand.is_known ≡ true) }
        ensures aborted { IsTrue result → (sender : ℕ) → (answer : Answer)
            × Q.carries self.old.inner sender job AbortJob answer self.new.inner }
        ensures same { result ≡ false → self.new.inner ≡ self.old.inner }
        ensures told { W.told self.new.ways ≡ W.told self.old.ways }
    {
        if !self.hand.can_turn_aside() || !self.ways.turns_aside() {
            return false;
        }
        if let Err(returned) = self.inner.abort(job, None) {
            returned.surrender();
        }
        self.hand.is_beside = true;
        true
    }
}
