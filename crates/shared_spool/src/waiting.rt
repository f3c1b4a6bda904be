//! The calls that wait for another one.

ghost use Rattle.std.specs.Prelude.{◌≡◌, ◌≢◌, ◌<◌, ◌^◌, Ok, Err, Some, IfOk, IfSome};
ghost use Rattle.std.specs.Sync.Mutex.{mutex_guard_value};
ghost use Rattle.account.specs.declared.kind.Kind.TheVariants as kind;
ghost use Rattle.spool_calls.specs.Calls.{IsRight};
ghost use Rattle.spool_calls.specs.declared.answers.Asked.TheVariants as asked;
ghost use Rattle.spool_calls.specs.declared.answers.Next.TheVariants as next;
ghost use Rattle.spool_core.specs.Tickets.{IsBlank};
ghost use Rattle.locked_spool.specs.Segments.{HasHeadline, IsLegalSegment};
ghost use Rattle.locked_spool.specs.Shares.{when_done, when_lent};
ghost use Rattle.locked_spool.specs.Waiting.{IsIdle};
ghost use Rattle.shared_spool.specs.Seats.{next_desk};

use crate::line::{AbortError, Keeper, Room, Waiting};
use crate::seats::{PrinterSeat, SessionSeat};
use crate::spool::SharedSpool;
use locked_spool::{Asked, Next, RotateError, Segment};
use lpd_values::Refusal;
use spool_ledgers::SpoolLedger;
use std::alloc::{AllocError, Global};
use std::sync::ledger::Ledger;
use std::sync::{MutexGuard, Wait};

impl<E: SpoolLedger, K: Ledger, H: Ledger> SharedSpool<E, K, H> {
    /// Lends a page to a job, once one may be lent. It waits while `ask` would answer Later.
    ///
    /// NotOpen where the job isn't being received, no file of it is open or a page is lent to it; OverClaim where it holds as
    /// many pages as its queue allows.
    pub fn ask_wait<R: Wait>(
        &self,
        rt: &R,
        seat: &mut SessionSeat<E, K, H>,
        job: u64,
    ) -> Result<Asked, Refusal>
        ensures page { IfOk result (IsBlank E.config.page_size) }
        ensures lent { result ≢ Ok asked.Later }
        ensures shares { seat.new ≡ when_lent result seat.old }
    {
        let number = seat.number;
        let mut room = self.state.lock(rt);
        for _ in rt.forever() {
            match room.locked.ask(&mut seat.shares, job) {
                Ok(Asked::Later) => {}
                answer => {
                    let next = room.leaves(number);
                    drop(room);
                    self.ring_session(next);
                    self.changed.notify_all();
                    return answer;
                }
            }
            let next = room.stays(Waiting {
                seat: number,
                job,
                lacks: seat.lacks,
                put: seat.put,
            });
            self.ring_session(next);
            room = self.session_bell(number).wait(rt, room);
        }
        unreachable!()
    }

    /// Gives the seat's printer its next page, once there is one or the spool is closed. It waits while `next` would answer
    /// Nothing or Stopped, and while a job would begin there whose queue is held.
    pub fn next_wait<R: Wait>(&self, rt: &R, seat: &mut PrinterSeat<E, K, H>) -> Next
        ensures seat { seat.new ≡ next_desk result seat.old }
        ensures bound { seat.new.sums.handed < 2 ^ 64 }
        ensures something { (result ≢ next.Nothing) × (result ≢ next.Stopped) }
    {
        let mut room = self.state.lock(rt);
        for _ in rt.forever() {
            if !room.puts_off(seat.printer) {
                match room.next(&mut *seat) {
                    Next::Nothing | Next::Stopped => {}
                    answer => {
                        drop(room);
                        self.hands(seat, &answer);
                        return answer;
                    }
                }
            }
            room = self.printer_bell(seat.printer).wait(rt, room);
        }
        unreachable!()
    }

    /// What the lock keeps, once no job is held or a printer is stopped.
    fn idle_room<R: Wait>(&self, rt: &R) -> MutexGuard<'_, Room<E, K, H>>
        ensures { IsRight (mutex_guard_value result).locked.core (λ d b h.
            IsIdle d b h (mutex_guard_value result).locked.core) }
    {
        let mut room = self.state.lock(rt);
        for _ in rt.forever() {
            if room.locked.is_idle() {
                return room;
            }
            room = self.changed.wait(rt, room);
        }
        unreachable!()
    }

    /// Waits until no job is held, or a printer is stopped.
    pub fn idle_wait<R: Wait>(&self, rt: &R) {
        drop(self.idle_room(rt));
    }

    /// What the lock keeps, once who keeps the account need not wait any more; None once the spool is closed.
    fn room_to_keep<R: Wait>(
        &self,
        rt: &R,
        keeper: Keeper,
    ) -> Option<MutexGuard<'_, Room<E, K, H>>> {
        let room = self.state.lock(rt);
        let room = self
            .bells
            .rotates
            .wait_while(rt, room, |r| r.must_keep(keeper));
        if room.is_closed() {
            return None;
        }
        Some(room)
    }

    /// Waits until no job is held and at least so many entries are counted, and rotates the account then, before another job can
    /// come. None once the spool is closed. One at a time may wait so, or by `keep_wait`.
    ///
    /// AccountFull where the sums over all segments would pass what a number holds; Memory where memory for the new account is
    /// refused.
    pub fn rotate_wait<R: Wait>(&self, rt: &R, least: u64) -> Option<Result<Segment, RotateError>>
        ensures legal { IfSome result (λ r. IfOk r (IsLegalSegment E.config)) }
        ensures headline { IfSome result (λ r. IfOk r (HasHeadline E.config)) }
    {
        let mut room = self.room_to_keep(
            rt,
            Keeper {
                least,
                trims: false,
            },
        )?;
        Some(room.locked.rotate())
    }

    /// Waits until at least so many entries are counted, and no job is held or a trim gives so many back: it rotates the account
    /// then, or trims it, before another job can come. None once the spool is closed. One at a time may wait so, or by
    /// `rotate_wait`.
    ///
    /// AccountFull where the sums over all segments, or the entries that the account may have, would pass what a number holds;
    /// Memory where memory for the next entries is refused.
    pub fn keep_wait<R: Wait>(&self, rt: &R, least: u64) -> Option<Result<Segment, RotateError>>
        ensures legal { IfSome result (λ r. IfOk r (IsLegalSegment E.config)) }
        ensures headline { IfSome result (λ r. IfOk r (HasHeadline E.config)) }
    {
        let mut room = self.room_to_keep(rt, Keeper { least, trims: true })?;
        Some(room.locked.keep())
    }

    /// Ends the job of a session that waits for exactly this: for the same page of the same job, with nothing put since. So
    /// whoever saw it wait, and looked at its connection after that, ends no session that went on meanwhile.
    ///
    /// Moved where it doesn't wait, or waits for another page, with what it waits for; NotOpen where its job isn't being received
    /// any more. Nothing has changed then.
    pub fn abort_waiting<R: Wait>(
        &self,
        rt: &R,
        seat: &mut SessionSeat<E, K, H>,
        waiting: Waiting,
    ) -> Result<(), AbortError>
        ensures moved { result ≢ Err (AbortError.Moved (Some waiting)) }
        ensures shares { seat.new ≡ when_done kind.Aborted result seat.old }
    {
        let mut room = self.state.lock(rt);
        let answer = room.abort_waiting(&mut seat.shares, waiting);
        if answer.is_ok() {
            self.ring_all(&mut *room, self.all_printers());
            drop(room);
            self.changed.notify_all();
        }
        answer
    }

    /// The sessions that wait for a page, by the numbers of their seats.
    ///
    /// AllocError where memory for the list is refused.
    pub fn waiting<R: Wait>(&self, rt: &R, alloc: Global) -> Result<Vec<Waiting>, AllocError> {
        self.state.lock(rt).line.all_waiting(alloc)
    }
}
