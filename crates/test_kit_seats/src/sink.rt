//! What printers print to, in memory.

ghost use Rattle.std.specs.Prelude.{◌≡◌};

use printer_worker::{HandedPage, PrintSink, SinkFault};
use std::alloc::Global;

/// A page that a printer was given.
#[derive(Drop)]
pub struct Paper {
    pub job: u64,
    pub place: u64,
    pub octets: Vec<u8>,
    pub is_printed: bool,
}

/// Counts the pages that are written to it, and keeps them where it is to.
#[derive(Drop)]
pub struct Sink {
    alloc: Global,
    keeps: bool,
    /// The number of the page that it can't print, from 1, or 0.
    pub fails: u64,
    /// The pages that came, in order, where it keeps them.
    pub papers: Vec<Paper>,
    /// How many octets were printed.
    pub octets: u64,
    /// How many pages were printed.
    pub oks: u64,
    /// How many were not.
    pub errs: u64,
}

impl Sink {
    /// A sink to which nothing was written.
    pub fn new(alloc: Global, keeps: bool, fails: u64) -> Sink {
        Sink {
            alloc,
            keeps,
            fails,
            papers: Vec::new(alloc),
            octets: 0,
            oks: 0,
            errs: 0,
        }
    }

    /// Keeps a page, and says whether there was memory for it.
    fn keep(&mut self, page: &HandedPage, is_printed: bool) -> bool
        ensures oks { self.new.oks ≡ self.old.oks }
        ensures errs { self.new.errs ≡ self.old.errs }
    {
        let Ok(octets) = Vec::from_slice(self.alloc, page.bytes()) else {
            return false;
        };
        let (job, place) = (page.job, page.place);
        let paper = Paper {
            job,
            place,
            octets,
            is_printed,
        };
        self.papers.push(paper).is_ok()
    }

    /// How many pages came.
    pub fn pages(&self) -> u64 {
        self.oks.saturating_add(self.errs)
    }
}

impl PrintSink for Sink {
    ghost oks = { λ sink. sink.oks };

    ghost errs = { λ sink. sink.errs };

    fn write_page(&mut self, page: &HandedPage) -> Result<(), SinkFault> {
        let is_printed = self.pages().saturating_add(1) != self.fails;
        if self.keeps && !self.keep(page, is_printed) || !is_printed {
            self.errs = self.errs.saturating_add(1);
            return Err(SinkFault);
        }
        self.oks = self.oks.saturating_add(1);
        self.octets = self.octets.saturating_add(page.bytes().len() as u64);
        Ok(())
    }
}
