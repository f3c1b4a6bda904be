//! What is next for a printer.

ghost use Rattle.std.specs.Prelude.{◌↔◌, IsTrue, List};
ghost use Rattle.account.specs.declared.entry.Outline.{Outline};
ghost use Rattle.config_values.specs.Config.{IsPrinter};
ghost use Rattle.spool_history.specs.Base.{Base};
ghost use Rattle.spool_history.specs.Events.{Event};
ghost use Rattle.spool_calls.specs.Looks.Detail.{Outlines};
ghost use Rattle.spool_calls.specs.Kept.{Leaves};
ghost use Rattle.spool_calls.specs.Calls.{IsRight};
ghost use Rattle.spool_core.specs.Due.{IsDue, IsTurnOf};
ghost use Rattle.spool_core.specs.Printers.{BeginsNext, HasNext, MustWait};

use crate::core_state::Core;
use page_chain::Place;

/// What is next for a printer.
#[derive(Clone, Copy)]
pub enum Due {
    /// Nothing more: the spool is closed.
    Closed,
    /// Nothing, until its queue is started: a page failed at it.
    Stopped,
    /// Nothing, until the page that is out at it comes back.
    Busy,
    /// Nothing now: no job is next for it, or all places of that job were handed out.
    Nothing,
    /// This place of the job at this place of the book.
    Page(usize, Place),
}

impl Core {
    /// What is next for a printer.
    pub(crate) fn due(&self, printer: u32) -> Due
        requires { IsPrinter self.now.config printer }
        ensures due { IsRight self.now (λ d b h. IsDue d b h self.now printer result) }
        ensures turn { IsTurnOf self.now printer result }
        ensures reached { (b : Base) × (h : List (Event Outline)) × Leaves Outlines b h self.now }
    {
        let at = self.printers[printer as usize - 1];
        if self.closed {
            return Due::Closed;
        }
        if at.stopped {
            return Due::Stopped;
        }
        if at.out.is_some() {
            return Due::Busy;
        }
        let Some(i) = self.book.turn_of(at.queue, at.began) else {
            return Due::Nothing;
        };
        match self.book.next_place(i) {
            Some(place) => Due::Page(i, place),
            None => Due::Nothing,
        }
    }

    /// Whether a page is next for a printer, so that `next` would hand it one.
    pub fn has_next(&self, printer: u32) -> bool
        requires { IsPrinter self.now.config printer }
        ensures next { IsRight self.now (λ d b h. IsTrue result ↔ HasNext d b h self.now printer) }
        ensures reached { (b : Base) × (h : List (Event Outline)) × Leaves Outlines b h self.now }
    {
        matches!(self.due(printer), Due::Page(..))
    }

    /// Whether `next` would hand a printer the first page of a job, which would begin there.
    pub fn begins_next(&self, printer: u32) -> bool
        requires { IsPrinter self.now.config printer }
        ensures { IsRight self.now (λ d b h. IsTrue result ↔ BeginsNext d b h self.now printer) }
    {
        match self.due(printer) {
            Due::Page(i, _) => self.book.job(i).handed() == 0,
            Due::Closed | Due::Stopped | Due::Busy | Due::Nothing => false,
        }
    }

    /// Whether a printer has to wait for its next page: `next` would answer Nothing or Stopped.
    pub fn must_wait(&self, printer: u32) -> bool
        requires { IsPrinter self.now.config printer }
        ensures { IsRight self.now (λ d b h. IsTrue result ↔ MustWait d b h self.now printer) }
    {
        matches!(self.due(printer), Due::Nothing | Due::Stopped)
    }
}
