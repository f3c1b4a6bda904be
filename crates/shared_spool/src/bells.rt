//! The bells of the seats: on each one only its seat waits.

ghost use Rattle.std.specs.Prelude.{◌≡◌};

use crate::line::{Calls, Room, Row};
use crate::spool::SharedSpool;
use locked_spool::{Config, Receipt};
use spool_ledgers::SpoolLedger;
use std::alloc::{AllocError, Global};
use std::sync::Condvar;
use std::sync::ledger::Ledger;

/// The bells of the seats, and the printers of each queue.
pub(crate) struct Bells {
    // By the printers' numbers. None has the number 0.
    printers: Vec<Condvar>,
    // By the numbers of the seats.
    sessions: Vec<Condvar>,
    // Of the one who rotates the account.
    pub(crate) rotates: Condvar,
    // The printers of each queue, by its number. None has the number 0.
    queues: Vec<Row>,
    // The printers of the queue that each printer serves, by its number. None has the number 0.
    rows: Vec<Row>,
    all: Row,
}

// Written out: each place that lets them go is then one call, and not the drops of all that they hold.
impl Drop for Bells {
    fn drop(self) {
        let Bells {
            printers: _,
            sessions: _,
            rotates: _,
            queues: _,
            rows: _,
            all: _,
        } = self;
    }
}

/// The printers of each queue of a configuration, and all of them for 0.
fn rows_of_queues(alloc: Global, config: &Config, all: Row) -> Result<Vec<Row>, AllocError> {
    let mut rows = Vec::new(alloc);
    rows.push(all)?;
    let mut first = all.first;
    for queue in config.queues().iter() {
        let past = first.saturating_add(queue.printers());
        rows.push(Row { first, past })?;
        first = past;
    }
    Ok(rows)
}

/// The printers of the queue that each printer serves, and all of them for 0.
fn rows_of_printers(alloc: Global, queues: &[Row], all: Row) -> Result<Vec<Row>, AllocError> {
    let mut rows = Vec::new(alloc);
    rows.push(all)?;
    for row in queues.iter().skip(1) {
        for _printer in row.first..row.past {
            rows.push(*row)?;
        }
    }
    Ok(rows)
}

/// So many bells.
fn bells_of(alloc: Global, count: u32) -> Result<Vec<Condvar>, AllocError> {
    (0..count).map(|_| Condvar::new()).collect(alloc)
}

impl Bells {
    /// The bells of so many sessions and of the printers of a configuration.
    pub(crate) fn new(alloc: Global, config: &Config, sessions: u32) -> Result<Bells, AllocError> {
        let past = config.printer_count().saturating_add(1);
        let all = Row { first: 1, past };
        let queues = rows_of_queues(alloc, config, all)?;
        let rows = rows_of_printers(alloc, queues.as_slice(), all)?;
        Ok(Bells {
            printers: bells_of(alloc, past)?,
            sessions: bells_of(alloc, sessions)?,
            rotates: Condvar::new(),
            queues,
            rows,
            all,
        })
    }

    /// The printers of the queue that a printer serves, or all where it serves none.
    pub(crate) fn row_with(&self, printer: u32) -> Row {
        self.rows.get(printer as usize).copied().unwrap_or(self.all)
    }

    /// The printers of the queue of a number, or all where no queue has it.
    pub(crate) fn row_of(&self, queue: u32) -> Row {
        self.queues.get(queue as usize).copied().unwrap_or(self.all)
    }
}

impl<E: SpoolLedger, K: Ledger, H: Ledger> SharedSpool<E, K, H> {
    /// The bell of a printer, or what is told after each event where it has none.
    pub(crate) fn printer_bell(&self, printer: u32) -> &Condvar {
        let bell = self.bells.printers.get(printer as usize);
        bell.unwrap_or(&self.changed)
    }

    /// The bell of a session, or what is told after each event where it has none.
    pub(crate) fn session_bell(&self, seat: u32) -> &Condvar {
        let bell = self.bells.sessions.get(seat as usize);
        bell.unwrap_or(&self.changed)
    }

    /// Rings the bell of a printer that was called.
    pub(crate) fn ring_printer(&self, printer: Option<u32>) {
        if let Some(printer) = printer {
            self.printer_bell(printer).notify_one();
        }
    }

    /// Rings the bell of a session that was called.
    pub(crate) fn ring_session(&self, seat: Option<u32>) {
        if let Some(seat) = seat {
            self.session_bell(seat).notify_one();
        }
    }

    /// Rings the bells of those that were called.
    pub(crate) fn ring(&self, calls: Calls) {
        self.ring_printer(calls.printer);
        self.ring_session(calls.session);
        if calls.rotates {
            self.bells.rotates.notify_one();
        }
    }

    /// Calls all printers of these that wait and need not any more, and rings their bells.
    pub(crate) fn ring_printers(&self, room: &mut Room<E, K, H>, row: Row) {
        for first in row.first..row.past {
            let past = first.saturating_add(1);
            self.ring_printer(room.call_printer(Row { first, past }));
        }
    }

    /// Rings the bells of all printers that wait and need not any more, of all sessions that wait, and of the one who rotates
    /// the account where it may.
    pub(crate) fn ring_all(&self, room: &mut Room<E, K, H>, row: Row) {
        self.ring_printers(room, row);
        for waiter in room.line.sessions.iter().flatten() {
            self.ring_session(Some(waiter.waiting.seat));
        }
        if room.may_rotate() {
            self.bells.rotates.notify_one();
        }
    }

    /// Who is called after such an answer: somebody where a job is whole by it. Where that isn't the last one that the seat
    /// opened, its queue isn't known.
    pub(crate) fn calls_after<X>(
        &self,
        room: &mut Room<E, K, H>,
        row: Option<Row>,
        answer: &Result<Receipt, X>,
    ) -> Calls {
        if !matches!(answer, Ok(Receipt::Received)) {
            return Calls::default();
        }
        if let Some(row) = row {
            return room.call(row);
        }
        self.ring_printers(room, self.bells.all);
        room.call_one_session()
    }

    /// An answer, of which others are told where an entry was written.
    pub(crate) fn told<T, X>(&self, answer: Result<T, X>) -> Result<T, X>
        ensures { result ≡ answer }
    {
        if answer.is_ok() {
            self.changed.notify_all();
        }
        answer
    }

    /// The printers of all queues.
    pub(crate) fn all_printers(&self) -> Row {
        self.bells.all
    }
}
