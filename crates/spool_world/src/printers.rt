//! The steps of printers.

ghost use Rattle.std.specs.Prelude.{◌≡◌, ◌≤◌, [], vec_capacity};
ghost use Rattle.spool_trace.specs.declared.step.Step.TheVariants as step;
ghost use Rattle.config_values.specs.Config.{IsPrinter};
ghost use Rattle.spool_world.specs.Worlds.{Steps, TakesPage, shown_page, with_page};

use crate::world::World;
use lpd_values::Octets;
use spool_core::{Foreign, HandedPage, Next};
use spool_trace::{Given, Reply, ShownPage};

/// A page as it is told, its octets copied into this room.
fn shown(page: &HandedPage, mut room: Vec<u8>) -> ShownPage
    requires empty { room.items ≡ [] }
    requires room { page.now.page.page_size ≤ vec_capacity room }
    ensures { result ≡ shown_page page.now }
{
    // No more octets lie on a page than it has room for.
    match room.extend_from_slice(page.page.bytes()) {
        Ok(()) => {}
        Err(_) => unreachable!(),
    }
    ShownPage {
        job: page.job,
        place: page.place,
        file: page.file,
        number: page.number,
        octets: Octets::from_vec(room),
    }
}

impl World {
    /// A printer asks for its next page.
    pub(crate) fn next(&mut self, printer: u32) -> Reply
        ensures config { self.new.core.config ≡ self.old.core.config }
        ensures step { Steps self.old (step.Next printer) result self.new }
    {
        if !self.core.config().is_printer(printer) {
            return Reply::NoSuch;
        }
        // Where no page is next no room is taken, since no reply but a page may be refused for
        // want of it.
        let room = if self.core.has_next(printer) {
            let page_size = self.core.config().page_size() as usize;
            match Vec::with_capacity(self.alloc, page_size) {
                Ok(room) => room,
                Err(_) => return Reply::Memory,
            }
        } else {
            Vec::new(self.alloc)
        };
        let given = match self.core.next(printer) {
            Next::Handed(page) => {
                let shown = shown(&page, room);
                self.put_at(printer, page);
                Given::Page(shown)
            }
            Next::Nothing => Given::Nothing,
            Next::Stopped => Given::Stopped,
            Next::Busy => Given::Busy,
            Next::Closed => Given::Closed,
        };
        Reply::Gave(given)
    }

    /// The page that a printer was handed is at it.
    fn put_at(&mut self, printer: u32, page: HandedPage)
        requires { IsPrinter self.old.core.config printer }
        ensures { self.new ≡ with_page self.old printer page }
    {
        if let Some(old) = self.pages[printer as usize - 1].replace(page) {
            old.surrender();
        }
    }

    /// Takes the page that a printer has.
    ///
    /// NoSuch where there is no such printer, and NoPage where it has no page.
    fn take_page(&mut self, printer: u32) -> Result<HandedPage, Reply>
        ensures { TakesPage self.old printer result self.new }
    {
        if !self.core.config().is_printer(printer) {
            return Err(Reply::NoSuch);
        }
        self.pages[printer as usize - 1].take().ok_or(Reply::NoPage)
    }

    /// A printer has printed its page.
    pub(crate) fn printed(&mut self, printer: u32) -> Reply
        ensures config { self.new.core.config ≡ self.old.core.config }
        ensures step { Steps self.old (step.Printed printer) result self.new }
    {
        let page = match self.take_page(printer) {
            Ok(page) => page,
            Err(reply) => return reply,
        };
        match self.core.printed(printer, page) {
            Ok(progress) => Reply::Printed(progress),
            Err(Foreign { page }) => {
                page.surrender();
                Reply::NoPage
            }
        }
    }

    /// A printer has failed on its page.
    pub(crate) fn failed(&mut self, printer: u32) -> Reply
        ensures config { self.new.core.config ≡ self.old.core.config }
        ensures step { Steps self.old (step.Failed printer) result self.new }
    {
        let page = match self.take_page(printer) {
            Ok(page) => page,
            Err(reply) => return reply,
        };
        match self.core.failed(printer, page) {
            Ok(()) => Reply::Failed,
            Err(Foreign { page }) => {
                page.surrender();
                Reply::NoPage
            }
        }
    }
}
