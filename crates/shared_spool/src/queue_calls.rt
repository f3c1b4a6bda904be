//! The calls on a queue or on the whole spool, through a session's seat.

ghost use Rattle.std.specs.Prelude.{◌≡◌, ◌+◌, ◌↔◌, IfErr, IfOk, IsErr};
ghost use Rattle.account.specs.declared.kind.Kind.TheVariants as kind;
ghost use Rattle.config_values.specs.Config.{queue_named};
ghost use Rattle.lpd_values.specs.declared.refusal.Refusal.TheVariants.{UnknownQueue};
ghost use Rattle.locked_spool.specs.Segments.{HasHeadline, IsLegalSegment};
ghost use Rattle.locked_spool.specs.Shares.{OneOrNone, WhenStarted, when_listed, when_removed, when_started, when_taken};
ghost use Rattle.locked_spool.specs.Telling.{text_of};

use crate::seats::SessionSeat;
use crate::spool::SharedSpool;
use locked_spool::{Pages, Removal, RotateError, Segment, Started, Unremoved};
use lpd_values::{Octets, Refusal};
use spool_ledgers::SpoolLedger;
use std::sync::Wait;
use std::sync::ledger::Ledger;

impl<E: SpoolLedger, K: Ledger, H: Ledger> SharedSpool<E, K, H> {
    /// Starts the stopped printers of a queue, and answers the number of the queue and how many of its printers it started. Where
    /// none is stopped nothing changes.
    ///
    /// Closed once the spool is closed; UnknownQueue where no queue has this name.
    pub fn start_telling<R: Wait>(
        &self,
        rt: &R,
        seat: &mut SessionSeat<E, K, H>,
        queue: &[u8],
    ) -> Result<Started, Refusal>
        ensures { seat.new ≡ when_started result seat.old }
    {
        let mut room = self.state.lock(rt);
        let answer = room.locked.start_telling(&mut seat.shares, queue);
        if let Ok(started) = &answer {
            self.ring_printers(&mut *room, self.bells.row_of(started.queue));
            drop(room);
            self.changed.notify_all();
        }
        answer
    }

    /// Starts the stopped printers of a queue. Where none is stopped nothing changes.
    ///
    /// Closed once the spool is closed; UnknownQueue where no queue has this name.
    pub fn start<R: Wait>(
        &self,
        rt: &R,
        seat: &mut SessionSeat<E, K, H>,
        queue: &[u8],
    ) -> Result<(), Refusal>
        ensures { WhenStarted result seat.old seat.new }
    {
        self.start_telling(rt, seat, queue)?;
        Ok(())
    }

    /// Holds a queue: no job of it begins at a printer that waits for its next page (`next_wait`), until it is released. A job
    /// that has begun goes on, and new ones are accepted. The account has no entry of it, and no other call answers otherwise.
    ///
    /// UnknownQueue where no queue has this name.
    pub fn hold<R: Wait>(&self, rt: &R, queue: &[u8]) -> Result<(), Refusal>
        ensures unknown { IfErr result (λ e. e ≡ UnknownQueue) }
        ensures named { IsErr result ↔ (queue_named E.config queue.now ≡ 0) }
    {
        self.state.lock(rt).hold(queue, true)?;
        Ok(())
    }

    /// Releases a queue that was held: its printers go on.
    ///
    /// UnknownQueue where no queue has this name.
    pub fn release<R: Wait>(&self, rt: &R, queue: &[u8]) -> Result<(), Refusal>
        ensures unknown { IfErr result (λ e. e ≡ UnknownQueue) }
        ensures named { IsErr result ↔ (queue_named E.config queue.now ≡ 0) }
    {
        let mut room = self.state.lock(rt);
        let number = room.hold(queue, false)?;
        self.ring_printers(&mut *room, self.bells.row_of(number));
        Ok(())
    }

    /// Removes the jobs of a queue that an agent removes by a list, or its active job alone where the list is empty, and
    /// answers the number of the queue, the numbers of these jobs, and the text that tells of them.
    ///
    /// Refused as `remove` is.
    pub fn remove_telling<R: Wait>(
        &self,
        rt: &R,
        seat: &mut SessionSeat<E, K, H>,
        queue: &[u8],
        agent: &[u8],
        list: &[Octets],
    ) -> Result<Removal, Refusal>
        ensures numbers { seat.new ≡ when_taken result seat.old }
        ensures text { seat.new ≡ when_removed (text_of result) seat.old }
    {
        let mut room = self.state.lock(rt);
        let answer = room
            .locked
            .remove_telling(&mut seat.shares, queue, agent, list);
        if let Ok(removal) = &answer {
            self.ring_all(&mut *room, self.bells.row_of(removal.queue));
            drop(room);
            self.changed.notify_all();
        }
        answer
    }

    /// Removes these jobs of a queue, all or none, and answers the number of the queue. No agent is asked: who calls it has the
    /// right. A job may have begun; who needs that none has holds the queue first. Where there are none nothing changes.
    ///
    /// Refused with Closed or UnknownQueue; Stays with the first number that isn't above the one before it, or that no received
    /// job of the queue has which hasn't ended; Refused with Memory where memory for the numbers of the entry is refused.
    pub fn remove_jobs<R: Wait>(
        &self,
        rt: &R,
        seat: &mut SessionSeat<E, K, H>,
        queue: &[u8],
        numbers: &[u64],
    ) -> Result<u32, Unremoved>
        ensures { seat.new ≡ when_listed numbers.now result seat.old }
    {
        let mut room = self.state.lock(rt);
        let answer = room.locked.remove_jobs(&mut seat.shares, queue, numbers);
        if let Ok(number) = &answer {
            self.ring_all(&mut *room, self.bells.row_of(*number));
            drop(room);
            self.changed.notify_all();
        }
        answer
    }

    /// Removes the jobs of a queue that an agent removes by a list, or its active job alone where the list is empty, and
    /// answers the text that tells of them.
    ///
    /// Closed; UnknownQueue; Memory where memory for the text or for the numbers of the jobs is refused.
    pub fn remove<R: Wait>(
        &self,
        rt: &R,
        seat: &mut SessionSeat<E, K, H>,
        queue: &[u8],
        agent: &[u8],
        list: &[Octets],
    ) -> Result<Octets, Refusal>
        ensures { seat.new ≡ when_removed result seat.old }
    {
        let removal = self.remove_telling(rt, seat, queue, agent, list)?;
        Ok(removal.text)
    }

    /// The text that answers a question for the state of a queue. A closed spool answers too.
    ///
    /// UnknownQueue; Memory where memory for the text is refused.
    pub fn state<R: Wait>(
        &self,
        rt: &R,
        _seat: &mut SessionSeat<E, K, H>,
        queue: &[u8],
        list: &[Octets],
        long: bool,
    ) -> Result<Octets, Refusal>
        ensures { _seat.new ≡ _seat.old }
    {
        self.state.lock(rt).locked.state(queue, list, long)
    }

    /// Closes the spool: each job ends, and nothing is accepted or handed out from then on. A page that is out may still come
    /// back. A second close changes nothing.
    pub fn close<R: Wait>(&self, rt: &R, seat: &mut SessionSeat<E, K, H>)
        ensures { OneOrNone kind.Closed seat.old seat.new }
    {
        let mut room = self.state.lock(rt);
        room.locked.close(&mut seat.shares);
        room.closes();
        self.ring_all(&mut *room, self.all_printers());
        drop(room);
        self.changed.notify_all();
    }

    /// Hands out the entries so far with their base, and begins an account of no entries from the base that they leave.
    ///
    /// JobsHeld where a job is held; AccountFull where the sums over all segments would pass what a number holds; Memory where
    /// memory for the new account is refused.
    pub fn rotate<R: Wait>(
        &self,
        rt: &R,
        _seat: &mut SessionSeat<E, K, H>,
    ) -> Result<Segment, RotateError>
        ensures shares { _seat.new ≡ _seat.old }
        ensures legal { IfOk result (IsLegalSegment E.config) }
        ensures headline { IfOk result (HasHeadline E.config) }
    {
        self.state.lock(rt).locked.rotate()
    }

    /// Hands out the entries that are there, also where jobs are held, and gives back what is counted for jobs that are gone.
    ///
    /// AccountFull where the sums over all segments, or the entries that the account may have, would pass what a number holds;
    /// Memory where memory for the next entries is refused.
    pub fn trim<R: Wait>(&self, rt: &R) -> Result<Segment, RotateError>
        ensures legal { IfOk result (IsLegalSegment E.config) }
        ensures headline { IfOk result (HasHeadline E.config) }
    {
        self.state.lock(rt).locked.trim()
    }

    /// How many jobs are held.
    pub fn held<R: Wait>(&self, rt: &R, _seat: &mut SessionSeat<E, K, H>) -> usize
        ensures { _seat.new ≡ _seat.old }
    {
        self.state.lock(rt).locked.held()
    }

    /// The pages by where they are. All together are the pages of the spool.
    pub fn pages_by_place<R: Wait>(&self, rt: &R, _seat: &mut SessionSeat<E, K, H>) -> Pages
        ensures seat { _seat.new ≡ _seat.old }
        ensures all { result.chained + result.lent + result.out + result.free ≡ E.config.pages }
    {
        self.state.lock(rt).locked.pages_by_place()
    }
}
