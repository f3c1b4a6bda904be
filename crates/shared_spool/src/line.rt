//! Who waits and who is called, beside the spool and under its lock.
//!
//! A printer stands in the line from when it begins to wait until it is called or goes on; it is called only if it need not
//! wait any more. A session stands in it until it goes on. One session at a time is called after the events that may have ended
//! a wait: it asks again, and then calls the next one that hasn't asked since the event, by the numbers of their jobs.

ghost use Rattle.std.specs.Prelude.{◌≡◌, ◌↔◌, ◌<◌, ◌^◌, IsTrue, set};
ghost use Rattle.account.specs.declared.kind.Kind.TheVariants as kind;
ghost use Rattle.locked_spool.specs.Entries.{WritesHanded};
ghost use Rattle.locked_spool.specs.Shares.{when_done, when_handed};
ghost use Rattle.locked_spool.specs.Waiting.{Waits, WhereNothing};
ghost use Rattle.shared_spool.specs.Line.{EndsWait, Holds, IsPutOff, held_at, waits_at};

use crate::seats::PrinterSeat;
use locked_spool::{Config, Locked, Next};
use lpd_values::Refusal;
use spool_ledgers::{Shares, SpoolLedger};
use std::alloc::{AllocError, Global};
use std::sync::ledger::Ledger;

/// A session that waits for a page.
#[derive(Clone, Copy, Debug, PartialEq, Eq)]
pub struct Waiting {
    /// The number of its seat.
    pub seat: u32,
    /// The job for which it asked.
    pub job: u64,
    /// How many octets the file lacks that was begun last through its seat.
    pub lacks: u64,
    /// How many octets of files were put through its seat since the last job was opened there.
    pub put: u64,
}

/// Why the job of a session that waits isn't ended. Nothing has changed then.
#[derive(Clone, Copy, Debug, PartialEq, Eq)]
pub enum AbortError {
    /// The session doesn't wait for that: what it waits for now, if it waits.
    Moved(Option<Waiting>),
    /// It waits for that, and its job isn't being received any more: it is told so when it asks next.
    NotOpen,
}

/// A session that waits, and how many events there were when it asked last.
#[derive(Clone, Copy)]
pub(crate) struct Waiter {
    pub(crate) waiting: Waiting,
    asked: u64,
}

/// For what waits who keeps the account.
#[derive(Clone, Copy)]
pub(crate) struct Keeper {
    /// At least so many entries have to be counted, or come back by a trim.
    pub(crate) least: u64,
    /// Whether a trim is as good as a rotation.
    pub(crate) trims: bool,
}

/// The printers and the sessions that wait. Each has its place from the first on: to enter takes no memory.
#[derive(Drop)]
pub(crate) struct Line {
    // Whether a printer waits and wasn't called, by its number. None has the number 0.
    printers: Vec<bool>,
    // The sessions that wait, by the numbers of their seats.
    pub(crate) sessions: Vec<Option<Waiter>>,
    // How many of them there are.
    waiting: u32,
    // The events that may have ended a session's wait, counted while one waits.
    events: u64,
    // How many of them there were when the round along the line began.
    round: u64,
    // The session that was called and didn't ask since.
    called: Option<u32>,
    // For what the one waits who keeps the account, where one waits.
    keeper: Option<Keeper>,
    // Whether a queue is held, by its number. None has the number 0.
    pub(crate) held: Vec<bool>,
    // The spool was closed.
    closed: bool,
}

/// Who is to be called once the lock is free.
#[derive(Clone, Copy, Default)]
pub(crate) struct Calls {
    pub(crate) printer: Option<u32>,
    pub(crate) session: Option<u32>,
    pub(crate) rotates: bool,
}

/// The printers of a queue: those from the first number on, before the last one.
#[derive(Clone, Copy)]
pub(crate) struct Row {
    pub(crate) first: u32,
    pub(crate) past: u32,
}

impl Line {
    /// Nobody waits of the printers of a configuration and of so many sessions, and no queue is held.
    pub(crate) fn new(alloc: Global, config: &Config, sessions: u32) -> Result<Line, AllocError> {
        let (printers, queues) = (config.printer_count(), config.queues().len() as u32);
        Ok(Line {
            printers: (0..=printers).map(|_| false).collect(alloc)?,
            sessions: (0..sessions).map(|_| None).collect(alloc)?,
            waiting: 0,
            events: 0,
            round: 0,
            called: None,
            keeper: None,
            held: (0..=queues).map(|_| false).collect(alloc)?,
            closed: false,
        })
    }

    /// Whether a printer waits and wasn't called.
    fn has_printer(&self, printer: u32) -> bool {
        let waits = self.printers.get(printer as usize);
        waits.copied().unwrap_or(false)
    }

    /// A printer waits, or it waits no longer or is called.
    fn set_printer(&mut self, printer: u32, waits: bool) {
        if let Some(place) = self.printers.get_mut(printer as usize) {
            *place = waits;
        }
    }

    /// Whether a queue is held.
    fn is_held(&self, queue: u32) -> bool
        ensures { result ≡ held_at self.now.held.items queue }
    {
        self.held.get(queue as usize).copied().unwrap_or(false)
    }

    /// A queue is held, or it is held no longer.
    fn set_held(&mut self, queue: u32, held: bool)
        ensures { self.new.held.items ≡ set self.old.held.items queue held }
    {
        if let Some(place) = self.held.get_mut(queue as usize) {
            *place = held;
        }
    }

    /// A session asked and has to wait.
    fn enter(&mut self, waiting: Waiting) {
        let asked = self.events;
        if let Some(place) = self.sessions.get_mut(waiting.seat as usize) {
            if place.is_none() {
                self.waiting = self.waiting.saturating_add(1);
            }
            *place = Some(Waiter { waiting, asked });
        }
    }

    /// A session waits no longer, if it did.
    fn leave(&mut self, seat: u32) {
        if let Some(place) = self.sessions.get_mut(seat as usize) {
            if place.is_some() {
                self.waiting = self.waiting.saturating_sub(1);
            }
            *place = None;
        }
    }

    /// The session of the first job among those that didn't ask since so many events.
    fn first(&self, events: u64) -> Option<u32> {
        let waiters = self.sessions.iter().flatten();
        let late = waiters.filter(|waiter| waiter.asked < events);
        let first = late.min_by_key(|waiter| waiter.waiting.job)?;
        Some(first.waiting.seat)
    }

    /// For what the session of a seat waits, if it does.
    fn waits_at(&self, seat: u32) -> Option<Waiting>
        ensures { result ≡ waits_at self.now.sessions.items seat }
    {
        match self.sessions.get(seat as usize) {
            Some(Some(waiter)) => Some(waiter.waiting),
            _ => None,
        }
    }

    /// The sessions that wait, by the numbers of their seats.
    pub(crate) fn all_waiting(&self, alloc: Global) -> Result<Vec<Waiting>, AllocError> {
        let waiters = self.sessions.iter().flatten();
        waiters.map(|waiter| waiter.waiting).collect(alloc)
    }

    /// Calls the next session of the round, or the first of the next round where more happened since.
    fn call(&mut self) -> Option<u32> {
        let mut next = self.first(self.round);
        if next.is_none() {
            self.round = self.events;
            next = self.first(self.round);
        }
        self.called = next;
        next
    }
}

/// A spool, and who waits for it.
#[derive(Drop)]
pub(crate) struct Room<E: SpoolLedger, K: Ledger, H: Ledger> {
    pub(crate) locked: Locked<E, K, H>,
    pub(crate) line: Line,
}

impl<E: SpoolLedger, K: Ledger, H: Ledger> Room<E, K, H> {
    /// Gives the printer of a seat its next page, if there is one. Where it has to wait it stands in the line from then on.
    pub(crate) fn next(&mut self, seat: &mut PrinterSeat<E, K, H>) -> Next
        ensures seat { seat.new
            ≡ record seat.old { sums = when_handed result seat.old.sums } }
        ensures bound { seat.new.sums.handed < 2 ^ 64 }
        ensures waits { WhereNothing result
            (Waits E.config self.old.locked seat.old.printer) }
        ensures account { WritesHanded self.old.locked self.new.locked seat.old.printer result }
    {
        let printer = seat.printer;
        let answer = self.locked.next(&mut seat.shares, printer);
        let waits = matches!(&answer, Next::Nothing | Next::Stopped);
        self.line.set_printer(printer, waits);
        answer
    }

    /// Whether a job would begin at a printer, and its queue is held.
    pub(crate) fn is_put_off(&self, printer: u32) -> bool
        ensures { IsTrue result
            ↔ IsPutOff E.config self.now.locked self.now.line.held.items printer }
    {
        self.line.is_held(self.locked.queue_of(printer)) && self.locked.begins_next(printer)
    }

    /// Whether a printer has to wait since its queue is held. Then it stands in the line.
    pub(crate) fn puts_off(&mut self, printer: u32) -> bool
        ensures held { IsTrue result
            ↔ IsPutOff E.config self.old.locked self.old.line.held.items printer }
        ensures same { self.new.locked ≡ self.old.locked }
    {
        let waits = self.is_put_off(printer);
        if waits {
            self.line.set_printer(printer, true);
        }
        waits
    }

    /// Holds the queue of a name, or releases it, and answers its number.
    ///
    /// UnknownQueue where no queue has this name.
    pub(crate) fn hold(&mut self, queue: &[u8], held: bool) -> Result<u32, Refusal>
        ensures held { Holds E.config self.old.line.held.items self.new.line.held.items
            queue.now held result }
        ensures same { self.new.locked ≡ self.old.locked }
    {
        let number = self.locked.queue_number(queue);
        let number = number.ok_or(Refusal::UnknownQueue)?;
        self.line.set_held(number, held);
        Ok(number)
    }

    /// Calls a printer of a queue that waits and need not any more, if one does.
    pub(crate) fn call_printer(&mut self, row: Row) -> Option<u32> {
        for printer in row.first..row.past {
            let waits = self.line.has_printer(printer);
            if waits && !self.locked.must_wait(printer) && !self.is_put_off(printer) {
                self.line.set_printer(printer, false);
                return Some(printer);
            }
        }
        None
    }

    /// Calls the next session, where one waits and a page is free.
    fn go_on(&mut self) -> Option<u32>
        ensures { self.new.locked ≡ self.old.locked }
    {
        if self.line.waiting == 0 || self.locked.pages_by_place().free == 0 {
            return None;
        }
        self.line.call()
    }

    /// Pages came back or a need ended: calls the first session that waits, unless one is called that goes on with it.
    pub(crate) fn call_session(&mut self) -> Option<u32>
        ensures { self.new.locked ≡ self.old.locked }
    {
        if self.line.waiting == 0 {
            return None;
        }
        self.line.events = self.line.events.wrapping_add(1);
        if self.line.called.is_some() {
            return None;
        }
        self.go_on()
    }

    /// A session that asked goes on with the round that it was called in, if it was.
    fn pass(&mut self, seat: u32) -> Option<u32>
        ensures { self.new.locked ≡ self.old.locked }
    {
        if self.line.called != Some(seat) {
            return None;
        }
        self.line.called = None;
        self.go_on()
    }

    /// A session asked and has to wait. Answers who is called next.
    pub(crate) fn stays(&mut self, waiting: Waiting) -> Option<u32>
        ensures { self.new.locked ≡ self.old.locked }
    {
        self.line.enter(waiting);
        self.pass(waiting.seat)
    }

    /// A session asked and need not wait any more. Answers who is called next.
    pub(crate) fn leaves(&mut self, seat: u32) -> Option<u32>
        ensures { self.new.locked ≡ self.old.locked }
    {
        if self.line.waiting == 0 {
            return None;
        }
        self.line.leave(seat);
        self.pass(seat)
    }

    /// Ends the job of a session that waits for exactly this.
    pub(crate) fn abort_waiting(
        &mut self,
        mine: &mut Shares<E, K, H>,
        waiting: Waiting,
    ) -> Result<(), AbortError>
        requires { 0 < mine.old.parts }
        ensures answer { EndsWait self.old.locked self.new.locked self.old.line.sessions.items
            waiting result }
        ensures shares { mine.new ≡ when_done kind.Aborted result mine.old }
    {
        let now = self.line.waits_at(waiting.seat);
        if now != Some(waiting) {
            return Err(AbortError::Moved(now));
        }
        match self.locked.abort(mine, waiting.job, None) {
            Ok(()) => Ok(()),
            Err(returned) => {
                returned.surrender();
                Err(AbortError::NotOpen)
            }
        }
    }

    /// A job ended or is whole: a printer of its queue may go on, and a session.
    pub(crate) fn call(&mut self, row: Row) -> Calls {
        Calls {
            printer: self.call_printer(row),
            session: self.call_session(),
            rotates: self.may_rotate(),
        }
    }

    /// Pages came back of a job that goes on: a session may go on too.
    pub(crate) fn call_one_session(&mut self) -> Calls {
        Calls {
            session: self.call_session(),
            ..Calls::default()
        }
    }

    /// Whether what who keeps the account waits for is so: no job is held and at least so many entries are counted, or a trim may
    /// give so many back.
    fn may_keep(&self, keeper: Keeper) -> bool {
        if keeper.trims {
            self.locked.may_keep(keeper.least)
        } else {
            self.locked.held() == 0 && keeper.least <= self.locked.counted()
        }
    }

    /// Whether who keeps the account waits, and need not any more.
    pub(crate) fn may_rotate(&self) -> bool {
        let keeper = self.line.keeper;
        keeper.is_some_and(|keeper| self.line.closed || self.may_keep(keeper))
    }

    /// Whether who keeps the account has to wait. It is called while it has to.
    pub(crate) fn must_keep(&mut self, keeper: Keeper) -> bool
        ensures { self.new.locked ≡ self.old.locked }
    {
        let waits = !self.line.closed && !self.may_keep(keeper);
        self.line.keeper = if waits { Some(keeper) } else { None };
        waits
    }

    /// Whether the spool was closed.
    pub(crate) fn is_closed(&self) -> bool {
        self.line.closed
    }

    /// The spool is closed.
    pub(crate) fn closes(&mut self)
        ensures { self.new.locked ≡ self.old.locked }
    {
        self.line.closed = true;
    }
}
