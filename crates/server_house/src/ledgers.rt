//! The ledgers of a server's spool, which go by one type.

ghost use Rattle.std.specs.Prelude.{ℕ};

use shared_spool::{PrinterSeat, SessionSeat, SharedSpool, SpoolLedger};
use std::marker::{Brand, PhantomData};
use std::sync::ledger::Ledger;

/// The ledger of a spool's entries, which names the two others: they are cut into as many parts.
pub trait HouseLedger: SpoolLedger {
    /// The ledger of the sum of the entries' kind numbers.
    ghost kinds: { ℕ };
    /// The ledger of the pages that are handed out.
    ghost handed: { ℕ };
}

impl HouseLedger for Brand {
    ghost kinds = { 0 };

    ghost handed = { 0 };
}

/// The ledger of the sum of the kind numbers.
#[derive(Drop)]
pub struct KindsOf<E: HouseLedger> {
    of: PhantomData<E>,
}

impl<E: HouseLedger> Ledger for KindsOf<E> {
    ghost name = { E.kinds };

    ghost parts = { E.parts };
}

/// The ledger of the pages that are handed out.
#[derive(Drop)]
pub struct HandedOf<E: HouseLedger> {
    of: PhantomData<E>,
}

impl<E: HouseLedger> Ledger for HandedOf<E> {
    ghost name = { E.handed };

    ghost parts = { E.parts };
}

/// The spool of a server.
pub type HouseSpool<E> = SharedSpool<E, KindsOf<E>, HandedOf<E>>;

/// A seat at it for a session, and for whoever else asks it.
pub type HouseSeat<E> = SessionSeat<E, KindsOf<E>, HandedOf<E>>;

/// A seat at it for a printer.
pub type PrintingSeat<E> = PrinterSeat<E, KindsOf<E>, HandedOf<E>>;
