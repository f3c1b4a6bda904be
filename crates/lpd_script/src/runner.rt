//! The lines of a script, run on a world.

ghost use Rattle.std.specs.Prelude.{◌≡◌, ◌++◌, [], IfErr, IfOk, OnOk, string_bytes};
ghost use Rattle.script_lines.specs.declared.script.ScriptLine.TheVariants as line;
ghost use Rattle.spool_trace.specs.Trace.{written_by};
ghost use Rattle.spool_trace.specs.declared.step.Step.TheVariants as step;
ghost use Rattle.spool_world.specs.Worlds.{Leads, Steps};
ghost use Rattle.lpd_script.specs.Runner.{Runs, WentOn};
ghost use Rattle.lpd_script.specs.Steps as S;
ghost use Rattle.lpd_script.specs.declared.runner.NotRun.TheVariants.{Memory};

use crate::hosts::Hosts;
use lpd_values::Octets;
use script_lines::{
    ScriptLine, Stop, free_line, given_line, printer_line, progress_line, session_line,
    session_told, turns_line,
};
use spool_world::{Answer, Config, Deed, Pages, Reply, Step, World};
use std::alloc::{AllocError, Global};

/// Why a line wasn't run.
#[derive(Clone, Copy, Debug, PartialEq, Eq)]
pub enum NotRun {
    /// It names a session that was never connected, or a printer that isn't there.
    NamesNothing,
    /// Memory was refused. The replies that a line has no word for are told so too: but for `Memory` itself the world gives
    /// none of them to the line's steps.
    Memory,
}

impl From<AllocError> for NotRun {
    ghost from_gives = { λ _ why. why ≡ Memory };

    fn from(_error: AllocError) -> NotRun {
        NotRun::Memory
    }
}

/// A world, and the hosts that connected to it.
#[derive(Drop)]
pub struct Runner {
    pub(crate) alloc: Global,
    world: World,
    hosts: Hosts,
}

/// The pages by where they are, in a line.
fn pages_line(alloc: Global, pages: Pages) -> Result<String, AllocError>
    ensures { IfOk result (λ line. string_bytes line
        ≡ S.pages_line pages.free pages.chained pages.lent pages.out) }
{
    let (free, chained, lent, out) = (pages.free, pages.chained, pages.lent, pages.out);
    format!(in alloc; "pages free {free} chained {chained} lent {lent} out {out}\n")
}

/// Puts what a session wrote in a turn behind these octets.
fn put_written(written: &mut Vec<u8>, deed: &Deed) -> Result<(), AllocError>
    ensures { OnOk result (written.new.items ≡ written.old.items ++ written_by deed.now) }
{
    match deed {
        Deed::Asked(_, Answer::Told(text)) => written.extend_from_slice(text.as_slice()),
        Deed::Acked => Ok(written.push(0)?),
        Deed::Refused(refusal) => Ok(written.push(refusal.octet())?),
        Deed::Asked(_, _) | Deed::Waited | Deed::Ended => Ok(()),
    }
}

/// Whether a session stops with what it did in a turn, and why.
fn stop_of(deed: &Deed) -> Option<Stop>
    ensures { result ≡ S.stop_of deed.now }
{
    match deed {
        Deed::Waited => Some(Stop::Waiting),
        Deed::Asked(_, Answer::Later) => Some(Stop::Later),
        Deed::Refused(_) | Deed::Ended => Some(Stop::Over),
        Deed::Asked(_, _) | Deed::Acked => None,
    }
}

impl Runner {
    /// A world in which nothing has happened, to which no host has connected.
    pub fn new(alloc: Global, config: Config) -> Result<Runner, AllocError>
        ensures config { IfOk result (λ runner. runner.world.core.config ≡ config) }
        ensures world { IfOk result (λ runner. Leads [] runner.world) }
        ensures hosts { IfOk result (λ runner. runner.hosts ≡ []) }
    {
        Ok(Runner {
            alloc,
            world: World::new(alloc, config)?,
            hosts: Hosts::new(alloc),
        })
    }

    /// Runs a line, and answers what it prints.
    pub fn run(&mut self, line: ScriptLine) -> Result<String, NotRun>
        ensures { Runs self.old line result self.new }
    {
        let alloc = self.alloc;
        match line {
            ScriptLine::Nothing => Ok(String::new(alloc)),
            ScriptLine::Connect { host } => {
                let sender = self.hosts.number(host)?;
                match self.world.step(&Step::Connect { sender }) {
                    Reply::Connected(session) => Ok(session_line(alloc, session)?),
                    _ => Err(NotRun::Memory),
                }
            }
            ScriptLine::Send { session, octets } => self.send(session, octets),
            ScriptLine::Go { session } => self.go(session),
            ScriptLine::Break { session } => self.break_off(session),
            ScriptLine::Next { printer } => self.next(printer),
            ScriptLine::Printed { printer } => self.printed(printer),
            ScriptLine::Failed { printer } => self.failed(printer),
            ScriptLine::Free => Ok(free_line(alloc, self.world.free())?),
            ScriptLine::Pages => Ok(pages_line(alloc, self.world.pages_by_place())?),
            ScriptLine::Shutdown => match self.world.step(&Step::Shutdown) {
                Reply::Closed => Ok(String::from_str(alloc, "closed\n")?),
                _ => Err(NotRun::Memory),
            },
        }
    }

    /// A printer asks for its next page.
    fn next(&mut self, printer: u32) -> Result<String, NotRun>
        ensures { Runs self.old (line.Next printer) result self.new }
    {
        match self.world.step(&Step::Next { printer }) {
            Reply::Gave(given) => Ok(given_line(self.alloc, printer, &given)?),
            Reply::NoSuch => Err(NotRun::NamesNothing),
            _ => Err(NotRun::Memory),
        }
    }

    /// A printer has printed its page.
    fn printed(&mut self, printer: u32) -> Result<String, NotRun>
        ensures { Runs self.old (line.Printed printer) result self.new }
    {
        match self.world.step(&Step::Printed { printer }) {
            Reply::Printed(progress) => Ok(progress_line(self.alloc, printer, progress)?),
            Reply::NoPage => Ok(printer_line(self.alloc, printer, "no page")?),
            Reply::NoSuch => Err(NotRun::NamesNothing),
            _ => Err(NotRun::Memory),
        }
    }

    /// A printer has failed on its page.
    fn failed(&mut self, printer: u32) -> Result<String, NotRun>
        ensures { Runs self.old (line.Failed printer) result self.new }
    {
        match self.world.step(&Step::Failed { printer }) {
            Reply::Failed => Ok(printer_line(self.alloc, printer, "ended")?),
            Reply::NoPage => Ok(printer_line(self.alloc, printer, "no page")?),
            Reply::NoSuch => Err(NotRun::NamesNothing),
            _ => Err(NotRun::Memory),
        }
    }

    /// Octets arrive for a session, which then goes on until it stops.
    fn send(&mut self, session: u32, octets: Octets) -> Result<String, NotRun>
        ensures { Runs self.old (line.Send session octets) result self.new }
    {
        let arrival = Step::Arrive {
            session: session as usize,
            octets,
        };
        match self.world.step(&arrival) {
            Reply::Taken => {}
            Reply::Gone => return Ok(session_told(self.alloc, session, "gone")?),
            Reply::NoSuch => return Err(NotRun::NamesNothing),
            _ => return Err(NotRun::Memory),
        }
        match self.turn(session) {
            Reply::Turned(deed) => self.go_on(session, deed),
            _ => Err(NotRun::Memory),
        }
    }

    /// A session goes on until it stops.
    fn go(&mut self, session: u32) -> Result<String, NotRun>
        ensures { Runs self.old (line.Go session) result self.new }
    {
        match self.turn(session) {
            Reply::Turned(deed) => self.go_on(session, deed),
            Reply::Gone => Ok(session_told(self.alloc, session, "gone")?),
            Reply::NoSuch => Err(NotRun::NamesNothing),
            _ => Err(NotRun::Memory),
        }
    }

    /// A session does the next thing that is due.
    fn turn(&mut self, session: u32) -> Reply
        ensures config { self.new.world.core.config ≡ self.old.world.core.config }
        ensures hosts { self.new.hosts ≡ self.old.hosts }
        ensures step { Steps self.old.world (step.Turn session) result self.new.world }
    {
        self.world.step(&Step::Turn {
            session: session as usize,
        })
    }

    /// A session that did this goes on until it stops. Answers what it wrote, from that on, and why it stopped.
    fn go_on(&mut self, session: u32, first: Deed) -> Result<String, NotRun>
        ensures ran { IfOk result (λ text.
            WentOn self.old session first (string_bytes text) self.new) }
        ensures not_run { IfErr result (λ why. why ≡ Memory) }
    {
        let mut written = Vec::new(self.alloc);
        let mut deed = first;
        for _ in 0..u64::MAX {
            put_written(&mut written, &deed)?;
            if let Some(stop) = stop_of(&deed) {
                return Ok(turns_line(self.alloc, session, written.as_slice(), stop)?);
            }
            // A session that goes on is there, and isn't over.
            let Reply::Turned(next) = self.turn(session) else {
                return Err(NotRun::Memory);
            };
            deed = next;
        }
        Err(NotRun::Memory)
    }

    /// The connection of a session breaks.
    fn break_off(&mut self, session: u32) -> Result<String, NotRun>
        ensures { Runs self.old (line.Break session) result self.new }
    {
        let breaking = Step::Break {
            session: session as usize,
        };
        match self.world.step(&breaking) {
            Reply::Broken => Ok(session_told(self.alloc, session, "broken")?),
            Reply::Gone => Ok(session_told(self.alloc, session, "gone")?),
            Reply::NoSuch => Err(NotRun::NamesNothing),
            _ => Err(NotRun::Memory),
        }
    }
}
