//! Seats at a spool.

ghost use Rattle.std.specs.Prelude.{◌≡◌};
ghost use Rattle.shared_spool.specs.Seats.{new_desk};

use crate::line::Row;
use spool_ledgers::Shares;
use std::marker::Model;
use std::sync::ledger::Ledger;

/// A session's seat. Contracts see what its calls added to the account.
#[derive(Drop)]
pub struct SessionSeat<E: Ledger, K: Ledger, H: Ledger> {
    // The number of its bell.
    pub(crate) number: u32,
    // The last job that it opened, and the printers of its queue.
    pub(crate) opened: u64,
    pub(crate) row: Row,
    // How many octets the file lacks that it began last, and how many were put since it opened that job.
    pub(crate) lacks: u64,
    pub(crate) put: u64,
    pub(crate) shares: Shares<E, K, H>,
}

impl<E: Ledger, K: Ledger, H: Ledger> Model for SessionSeat<E, K, H> {
    ghost use Rattle.std.specs.Prelude.{◌≡◌};
    ghost use Rattle.spool_ledgers.specs.Sums.{Sums};

    ghost Value = { Sums };

    ghost view = { λ s. s.shares };

    // No page is handed out through it.
    ghost invariant = { λ s. (s.shares.parts ≡ 1) × (s.shares.handed ≡ 0) };
}

impl<E: Ledger, K: Ledger, H: Ledger> SessionSeat<E, K, H> {
    /// A seat with its part.
    pub(crate) fn new(number: u32, shares: Shares<E, K, H>) -> SessionSeat<E, K, H>
        requires part { shares.parts ≡ 1 }
        requires none { shares.handed ≡ 0 }
        ensures { result ≡ shares }
    {
        SessionSeat {
            number,
            opened: 0,
            row: Row { first: 0, past: 0 },
            lacks: 0,
            put: 0,
            shares,
        }
    }

    /// Its number, from 0 over all sessions' seats.
    pub fn number(&self) -> u32 {
        self.number
    }

    /// Gives its shares up.
    pub(crate) fn into_shares(self) -> Shares<E, K, H>
        ensures same { result ≡ self }
        ensures one { self.parts ≡ 1 }
        ensures none { self.handed ≡ 0 }
    {
        let SessionSeat { shares, .. } = self;
        shares
    }

    /// The printers of a job's queue, where it is the last one that was opened here.
    pub(crate) fn row_for(&self, job: u64) -> Option<Row> {
        (self.opened == job).then_some(self.row)
    }
}

/// A printer's seat. Contracts see its number, whether a page that it was handed is out, and what its calls added to the
/// account.
#[derive(Drop)]
pub struct PrinterSeat<E: Ledger, K: Ledger, H: Ledger> {
    pub(crate) printer: u32,
    pub(crate) is_out: bool,
    pub(crate) shares: Shares<E, K, H>,
}

impl<E: Ledger, K: Ledger, H: Ledger> Model for PrinterSeat<E, K, H> {
    ghost use Rattle.std.specs.Prelude.{◌≡◌};
    ghost use Rattle.shared_spool.specs.Seats.{Desk};

    ghost Value = { Desk };

    ghost view = { λ s. record { printer = s.printer; is_out = s.is_out; sums = s.shares } };

    ghost invariant = { λ s. s.shares.parts ≡ 1 };
}

impl<E: Ledger, K: Ledger, H: Ledger> PrinterSeat<E, K, H> {
    /// A seat with its part.
    pub(crate) fn new(printer: u32, shares: Shares<E, K, H>) -> PrinterSeat<E, K, H>
        requires { shares.parts ≡ 1 }
        ensures { result ≡ record (new_desk printer) { sums = shares } }
    {
        PrinterSeat {
            printer,
            is_out: false,
            shares,
        }
    }

    /// Gives its shares up.
    pub(crate) fn into_shares(self) -> Shares<E, K, H>
        ensures same { result ≡ self.sums }
        ensures one { self.sums.parts ≡ 1 }
    {
        let PrinterSeat { shares, .. } = self;
        shares
    }

    /// The number of its printer, from 1 over all queues.
    pub fn printer(&self) -> u32
        ensures { result ≡ self.now.printer }
    {
        self.printer
    }

    /// Whether a page that it was handed is out.
    pub fn is_out(&self) -> bool
        ensures { result ≡ self.now.is_out }
    {
        self.is_out
    }
}
