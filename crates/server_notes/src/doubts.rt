//! Jobs that were printed, and of which it isn't known whether the printer has their last octets.

use std::alloc::{AllocError, Global};
use std::sync::{Mutex, Wait};

/// The last such job of each printer, by the printers' numbers, until a later one ended without a doubt.
#[derive(Drop)]
pub struct Doubts {
    printers: Vec<Mutex<Option<u64>>>,
}

impl Doubts {
    /// None of N printers. An error where memory is refused.
    pub fn new(alloc: Global, printers: u32) -> Result<Doubts, AllocError> {
        let mut places = Vec::new(alloc);
        for _printer in 0..printers {
            places.push(Mutex::new(None))?;
        }
        Ok(Doubts { printers: places })
    }

    /// The place of a printer, which are numbered from 1.
    fn place(&self, printer: u32) -> Option<&Mutex<Option<u64>>> {
        self.printers.get((printer as usize).checked_sub(1)?)
    }

    /// A job has ended at a printer: this one, of which it isn't known whether all of it came, or one without a doubt.
    pub fn note<R: Wait>(&self, rt: &R, printer: u32, doubtful: Option<u64>) {
        if let Some(place) = self.place(printer) {
            *place.lock(rt) = doubtful;
        }
    }

    /// The job of a printer of which that isn't known.
    pub fn of<R: Wait>(&self, rt: &R, printer: u32) -> Option<u64> {
        *self.place(printer)?.lock(rt)
    }
}
