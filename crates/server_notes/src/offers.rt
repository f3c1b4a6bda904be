//! Jobs that wait at printers, and that the server may put back: nothing of them has gone.
//!
//! ```text
//!           nothing of its job goes            its queue's jobs leave the spool
//!   None -----------------------------> Open ------------------------------------> Taken
//!     ^                                  |                                           |
//!     +------- an octet may go ----------+-------- the printer has seen it ----------+
//! ```
//!
//! A printer offers its job while it waits, and withdraws it before an octet may go. Who takes jobs holds all offers meanwhile, so that none
//! is withdrawn in between: a job that was put back was never begun.

use std::alloc::{AllocError, Global};
use std::sync::{Mutex, MutexGuard, Wait};

/// What a printer offers.
#[derive(Clone, Copy, Debug, PartialEq, Eq)]
enum Offer {
    /// Nothing.
    None,
    /// The job of this number of acceptance.
    Open(u64),
    /// What it offered was put back.
    Taken,
}

/// What the printers of a server offer, by their numbers.
#[derive(Drop)]
pub struct Offers {
    printers: Mutex<Vec<Offer>>,
}

/// The place of a printer, which are numbered from 1.
fn place_of(printer: u32) -> usize {
    (printer as usize).saturating_sub(1)
}

impl Offers {
    /// None of N printers offers anything. An error where memory is refused.
    pub fn new(alloc: Global, printers: u32) -> Result<Offers, AllocError> {
        let mut offers = Vec::new(alloc);
        for _printer in 0..printers {
            offers.push(Offer::None)?;
        }
        Ok(Offers {
            printers: Mutex::new(offers),
        })
    }

    /// A printer offers the job of this number, unless its job was put back.
    pub fn open<R: Wait>(&self, rt: &R, printer: u32, job: u64) {
        if let Some(offer) = self.printers.lock(rt).get_mut(place_of(printer)) {
            if *offer != Offer::Taken {
                *offer = Offer::Open(job);
            }
        }
    }

    /// A printer offers nothing any more. Whether what it offered was put back before, which is told once.
    pub fn withdraw<R: Wait>(&self, rt: &R, printer: u32) -> bool {
        match self.printers.lock(rt).get_mut(place_of(printer)) {
            Some(offer) => {
                let was_taken = *offer == Offer::Taken;
                *offer = Offer::None;
                was_taken
            }
            None => false,
        }
    }

    /// All offers, which stay as they are until these are let go.
    pub fn hold<R: Wait>(&self, rt: &R) -> HeldOffers<'_> {
        HeldOffers {
            printers: self.printers.lock(rt),
        }
    }
}

/// What the printers of a server offer, which nobody else changes while this is held.
#[derive(Drop)]
pub struct HeldOffers<'a> {
    printers: MutexGuard<'a, Vec<Offer>>,
}

impl HeldOffers<'_> {
    /// The job that a printer offers.
    pub fn job_of(&self, printer: u32) -> Option<u64> {
        match self.printers.get(place_of(printer)) {
            Some(Offer::Open(job)) => Some(*job),
            Some(Offer::None | Offer::Taken) | None => None,
        }
    }

    /// What a printer offers is put back.
    pub fn take(&mut self, printer: u32) {
        if let Some(offer) = self.printers.get_mut(place_of(printer)) {
            *offer = Offer::Taken;
        }
    }
}
