//! The world: a core, the connections of its hosts, and the pages at its printers.

ghost use Rattle.std.specs.Prelude.{◌≡◌, ◌+◌, ◌<◌, ◌≤◌, ◌∷◌, [], All, Option, None, Some, length, vec_capacity};
ghost use Rattle.std.specs.Prelude.{IfErr, IfOk, MatchOption, OnErr, OnOk};
ghost use Rattle.spool_trace.specs.declared.step.Step.TheVariants as step;
ghost use Rattle.spool_trace.specs.Trace.{Trace};
ghost use Rattle.spool_trace.specs.Shown.{events, spool_after};
ghost use Rattle.spool_history.specs.Base.{first_base};
ghost use Rattle.spool_history.specs.Now.{free_pages};
ghost use Rattle.spool_calls.specs.declared.handed.HandedPage.{HandedPage};
ghost use Rattle.spool_calls.specs.Looks.Detail.{Octets};
ghost use Rattle.spool_calls.specs.Readers.{ArePlaced, placed};
ghost use Rattle.spool_world.specs.Worlds.{AddsConnection, IsPlace, Leads, Steps};

use crate::connection::Connection;
use bytes::BytesMut;
use receiver::Receiver;
use spool_core::{Config, Core, HandedPage, Pages, Unmade};
use spool_trace::{Reply, Step};
use std::alloc::{AllocError, Global};
use std::marker::Model;

/// A spool with the connections of its hosts and the pages at its printers. A world that is dropped
/// spends its pages.
///
/// Contracts say of each step what is replied after any trace that leads to where the world is, and
/// which trace it leaves.
pub struct World {
    pub(crate) alloc: Global,
    pub(crate) core: Core,
    pub(crate) connections: Vec<Connection>,
    pub(crate) pages: Vec<Option<HandedPage>>,
}

impl Model for World {
    ghost use Rattle.spool_world.specs.Worlds.{Worlds};
    ghost use Rattle.spool_world.specs.Inside.{world_view, IsWorld};

    ghost Value = { Worlds };

    ghost view = { world_view };

    ghost invariant = { IsWorld };
}

impl Drop for World {
    fn drop(self) {
        let World {
            alloc: _,
            core: _,
            mut connections,
            mut pages,
        } = self;
        while let Some(connection) = connections.pop() {
            connection.surrender();
        }
        connections.destroy_empty();
        while let Some(page) = pages.pop() {
            if let Some(page) = page {
                page.surrender();
            }
        }
        pages.destroy_empty();
    }
}

/// A place for the page of each printer, with no page in it, where there is room for these places.
fn no_pages(room: Vec<Option<HandedPage>>, printers: usize) -> Vec<Option<HandedPage>>
    requires empty { room.items ≡ [] }
    requires enough { printers ≤ vec_capacity room }
    ensures count { length result.items ≡ printers }
    ensures none { All (λ (page : Option HandedPage). page ≡ None) result.items }
{
    let mut pages = room;
    for _ in 0..printers {
        pages.push_reserved(None);
    }
    pages
}

impl World {
    /// A world in which nothing has happened.
    ///
    /// Where memory for it is refused the configuration comes back.
    pub fn new(alloc: Global, config: Config) -> Result<World, Unmade>
        ensures config { IfOk result (λ world. world.core.config ≡ config) }
        ensures start { IfOk result (Leads []) }
        ensures back { IfErr result (λ unmade. unmade.config ≡ config) }
    {
        let printers = config.printer_count() as usize;
        let Ok(room) = Vec::with_capacity(alloc, printers) else {
            return Err(Unmade { config });
        };
        match Core::new(alloc, config) {
            Ok(core) => Ok(World {
                alloc,
                core,
                connections: Vec::new(alloc),
                pages: no_pages(room, printers),
            }),
            Err(unmade) => {
                room.destroy_empty();
                Err(unmade)
            }
        }
    }

    /// The configuration.
    pub fn config(&self) -> &Config
        ensures { result.now ≡ self.now.core.config }
    {
        self.core.config()
    }

    /// How many pages are free.
    pub fn free(&self) -> usize
        ensures { (t : Trace) → Leads t self.now
            → result ≡ free_pages (spool_after self.now.core.config t) }
    {
        self.core.free()
    }

    /// The pages by where they are.
    pub fn pages_by_place(&self) -> Pages
        ensures { (t : Trace) → Leads t self.now
            → ArePlaced Octets first_base (events self.now.core.config t) self.now.core
            (placed result.free result.chained result.lent result.out) }
    {
        self.core.pages_by_place()
    }

    /// Does a step, and replies to it.
    ///
    /// Where memory is refused the reply is Memory and nothing has happened; so it may be of a
    /// connection, of octets that arrive, and of a printer for which a page is next.
    pub fn step(&mut self, step: &Step) -> Reply
        ensures config { self.new.core.config ≡ self.old.core.config }
        ensures step { Steps self.old step.now result self.new }
    {
        match step {
            Step::Connect { sender } => self.connect(*sender),
            Step::Arrive { session, octets } => self.arrive(*session, octets.as_slice()),
            Step::Turn { session } => self.turn(*session),
            Step::Break { session } => self.break_off(*session),
            Step::Next { printer } => self.next(*printer),
            Step::Printed { printer } => self.printed(*printer),
            Step::Failed { printer } => self.failed(*printer),
            Step::Shutdown => self.shutdown(),
        }
    }
}

impl World {
    /// A host connects.
    fn connect(&mut self, sender: u32) -> Reply
        ensures config { self.new.core.config ≡ self.old.core.config }
        ensures step { Steps self.old (step.Connect sender) result self.new }
    {
        match self.add_connection(sender) {
            Ok(()) => Reply::Connected(self.connections.len()),
            Err(_) => Reply::Memory,
        }
    }

    /// One connection more, on which nothing has arrived. Nothing changes where memory for it is
    /// refused.
    fn add_connection(&mut self, sender: u32) -> Result<(), AllocError>
        ensures added { OnOk result (AddsConnection self.old sender self.new) }
        ensures same { OnErr result (self.new ≡ self.old) }
    {
        self.connections.reserve(1)?;
        let reader = Receiver::new(self.alloc)?;
        let unread = BytesMut::new(self.alloc);
        self.connections.push_reserved(Connection {
            sender,
            reader: Some(reader),
            job: 0,
            kept: None,
            unread,
        });
        Ok(())
    }

    /// The place of the session of a number, or None where there is none.
    fn place_of(&self, session: usize) -> Option<usize>
        ensures { MatchOption result (IsPlace self.now session → ⊥)
            (λ i. IsPlace self.now session × (i + 1 ≡ session)) }
    {
        let i = session.checked_sub(1)?;
        if i < self.connections.len() {
            Some(i)
        } else {
            None
        }
    }

    /// Octets arrive on a session.
    fn arrive(&mut self, session: usize, octets: &[u8]) -> Reply
        ensures config { self.new.core.config ≡ self.old.core.config }
        ensures step { Steps self.old (step.Arrive session octets.now) result self.new }
    {
        let Some(i) = self.place_of(session) else {
            return Reply::NoSuch;
        };
        let connection = &mut self.connections[i];
        if connection.reader.is_none() {
            return Reply::Gone;
        }
        match connection.unread.extend_from_slice(octets) {
            Ok(()) => Reply::Taken,
            Err(_) => Reply::Memory,
        }
    }

    /// A session does the next thing that is due.
    fn turn(&mut self, session: usize) -> Reply
        ensures config { self.new.core.config ≡ self.old.core.config }
        ensures step { Steps self.old (step.Turn session) result self.new }
    {
        let Some(i) = self.place_of(session) else {
            return Reply::NoSuch;
        };
        match self.connections[i].turn(&mut self.core) {
            Some(deed) => Reply::Turned(deed),
            None => Reply::Gone,
        }
    }

    /// The connection of a session breaks.
    fn break_off(&mut self, session: usize) -> Reply
        ensures config { self.new.core.config ≡ self.old.core.config }
        ensures step { Steps self.old (step.Break session) result self.new }
    {
        let Some(i) = self.place_of(session) else {
            return Reply::NoSuch;
        };
        let connection = &mut self.connections[i];
        if connection.reader.is_none() {
            return Reply::Gone;
        }
        connection.end(&mut self.core);
        Reply::Broken
    }

    /// The spool is closed.
    fn shutdown(&mut self) -> Reply
        ensures config { self.new.core.config ≡ self.old.core.config }
        ensures step { Steps self.old step.Shutdown result self.new }
    {
        self.core.close();
        Reply::Closed
    }
}
