//! The pages that the sessions of a spool's jobs keep, or its printers.

use page_pool::PageTicket;
use printer_worker::HandedPage;
use std::alloc::{AllocError, AllocFailed, Global};

/// A page that has to be spent.
pub trait Page {
    /// Spends it.
    fn spend(self);
}

impl Page for PageTicket {
    fn spend(self) {
        self.surrender();
    }
}

impl Page for HandedPage {
    fn spend(self) {
        self.surrender();
    }
}

/// Pages, each under the number of who keeps it. They are spent where this is dropped.
pub struct Kept<P: Page> {
    pages: Vec<(u64, P)>,
}

impl<P: Page> Drop for Kept<P> {
    fn drop(self) {
        let Kept { mut pages } = self;
        while let Some((_, page)) = pages.pop() {
            page.spend();
        }
        pages.destroy_empty();
    }
}

impl<P: Page> Kept<P> {
    /// No page is kept.
    pub fn new(alloc: Global) -> Kept<P> {
        Kept {
            pages: Vec::new(alloc),
        }
    }

    /// Keeps a page under a number. It is spent where memory for it is refused.
    pub fn keep(&mut self, number: u64, page: P) -> Result<(), AllocError> {
        match self.pages.push((number, page)) {
            Ok(()) => Ok(()),
            Err(AllocFailed { value }) => {
                value.1.spend();
                Err(AllocError)
            }
        }
    }

    /// Takes out what is kept under a number, the oldest first.
    pub fn take(&mut self, number: u64) -> Option<P> {
        let i = self.pages.iter().position(|kept| kept.0 == number)?;
        let (_, page) = self.pages.remove(i);
        Some(page)
    }

    /// What is kept under one of two numbers is kept under the other.
    pub fn exchange(&mut self, one: u64, other: u64) {
        for kept in self.pages.iter_mut() {
            if kept.0 == one {
                kept.0 = other;
            } else if kept.0 == other {
                kept.0 = one;
            }
        }
    }
}
