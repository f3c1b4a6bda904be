//! The calls of a spool that no request of a session is. A core answers them, and so do the seats of a spool that threads share.

ghost use Rattle.std.specs.Prelude.{IsSome};
ghost use Rattle.receiver.specs.View.{BeginsSome, asked};

use lpd_commands::Refusal;
use page_pool::PageTicket;
use receiver::Need;
use request_calls::{Outcome, Requests, ReturnedTicket, carry_out};
use spool_core::{Asked, Core, Foreign, HandedPage, Next, Pages, Progress, Unremoved, Vacancy};

/// What carries out the requests of sessions, and answers the other calls of a spool.
pub trait Spool: Drop {
    /// Carries out a request of a session, whose host has this number and whose last job has this one.
    fn carry_out(&mut self, sender: u32, job: u64, request: Need) -> Outcome
        requires asks { IsSome (asked request) }
        requires begins { BeginsSome request };

    /// Ends a job that is being received, with the page that is lent to it.
    fn abort(&mut self, job: u64, ticket: Option<PageTicket>) -> Result<(), ReturnedTicket>;

    /// Lends a page to a job, or answers Later at once.
    fn ask(&mut self, job: u64) -> Result<Asked, Refusal>;

    /// Gives a printer its next page. Closed where there is no such printer.
    fn next(&mut self, printer: u32) -> Next;

    /// Takes back the page that is out at a printer, printed or failed, and says how far its job is. Foreign where there is no such
    /// printer.
    fn take_back(
        &mut self,
        printer: u32,
        page: HandedPage,
        is_printed: bool,
    ) -> Result<Progress, Foreign>;

    /// Removes these jobs of a queue, all or none.
    fn remove_jobs(&mut self, queue: &[u8], numbers: &[u64]) -> Result<u32, Unremoved>;

    /// Closes the spool.
    fn close(&mut self);

    /// How many jobs are held, the pages by where they are, and what there is room for.
    fn counts(&mut self) -> (usize, Pages, Vacancy);
}

impl Spool for Core {
    fn carry_out(&mut self, sender: u32, job: u64, request: Need) -> Outcome {
        carry_out(self, sender, job, request)
    }

    fn abort(&mut self, job: u64, ticket: Option<PageTicket>) -> Result<(), ReturnedTicket> {
        Requests::abort(self, job, ticket)
    }

    fn ask(&mut self, job: u64) -> Result<Asked, Refusal> {
        Core::ask(self, job)
    }

    fn next(&mut self, printer: u32) -> Next {
        if !self.config().is_printer(printer) {
            return Next::Closed;
        }
        Core::next(self, printer)
    }

    fn take_back(
        &mut self,
        printer: u32,
        page: HandedPage,
        is_printed: bool,
    ) -> Result<Progress, Foreign> {
        if !self.config().is_printer(printer) {
            return Err(Foreign { page });
        }
        if is_printed {
            return self.printed(printer, page);
        }
        self.failed(printer, page)?;
        Ok(Progress::Ended)
    }

    fn remove_jobs(&mut self, queue: &[u8], numbers: &[u64]) -> Result<u32, Unremoved> {
        Core::remove_jobs(self, queue, numbers)
    }

    fn close(&mut self) {
        Core::close(self)
    }

    fn counts(&mut self) -> (usize, Pages, Vacancy) {
        (self.held(), self.pages_by_place(), self.vacancy())
    }
}
