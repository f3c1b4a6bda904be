//! What a server prints, which other threads see.

ghost use Rattle.std.specs.Prelude.{None};

use lpd_commands::{OctetFault, OctetWrite};
use std::alloc::Global;
use std::sync::{Condvar, Mutex, Wait};
use std::thread;
use std::time::{Clock, Duration};

/// How many seconds are waited for the server to listen, or to end.
const LIMIT_SECONDS: u64 = 30;

/// What a server has printed, and whether it has ended.
#[derive(Drop)]
struct Said {
    octets: Vec<u8>,
    has_ended: bool,
}

/// A server's output, which other threads see.
#[derive(Drop)]
pub struct Terminal {
    paper: Paper,
    said: Mutex<Said>,
    changed: Condvar,
}

/// How a server's lines are taken.
#[derive(Clone, Copy)]
pub struct Paper {
    /// How many lines it has room for; then each write fails.
    pub lines: u64,
    /// For how many milliseconds each line but the first is written.
    pub pause_ms: u64,
}

/// Paper that takes all lines, each at once.
pub const ENDLESS: Paper = Paper {
    lines: u64::MAX,
    pause_ms: 0,
};

/// The end of a terminal that a server writes to.
#[derive(Drop)]
pub struct Output<'a, R: Wait> {
    rt: &'a R,
    terminal: &'a Terminal,
    taken: u64,
    faults: u64,
}

impl<'a, R: Wait> Output<'a, R> {
    /// The end of this terminal, to which nothing was written.
    pub fn new(rt: &'a R, terminal: &'a Terminal) -> Output<'a, R> {
        Output {
            rt,
            terminal,
            taken: 0,
            faults: 0,
        }
    }
}

impl<R: Clock + Wait> OctetWrite for Output<'_, R> {
    ghost written = { λ _. None };

    ghost faults = { λ output. output.faults };

    fn write(&mut self, octets: &[u8]) -> Result<usize, OctetFault> {
        let Terminal {
            paper,
            said,
            changed,
        } = self.terminal;
        if self.taken > 0 && paper.pause_ms > 0 {
            thread::sleep(self.rt, Duration::from_millis(paper.pause_ms));
        }
        let has_room = self.taken < paper.lines;
        if !has_room || said.lock(self.rt).octets.extend_from_slice(octets).is_err() {
            self.faults = self.faults.saturating_add(1);
            return Err(OctetFault);
        }
        changed.notify_all();
        self.taken += 1;
        Ok(octets.len())
    }
}

impl Terminal {
    /// Nothing is printed on this paper.
    pub fn new(alloc: Global, paper: Paper) -> Terminal {
        let said = Said {
            octets: Vec::new(alloc),
            has_ended: false,
        };
        Terminal {
            paper,
            said: Mutex::new(said),
            changed: Condvar::new(),
        }
    }

    /// The server has ended: nothing more is printed.
    pub fn end<R: Wait>(&self, rt: &R) {
        self.said.lock(rt).has_ended = true;
        self.changed.notify_all();
    }

    /// What is printed, once the first line is or the server has ended; or, where its end is
    /// wanted, once it has ended. None where it goes on for half a minute.
    pub fn text<R: AllocGlobal + Clock + Wait>(&self, rt: &R, until_end: bool) -> Option<String> {
        let limit = Duration::from_secs(LIMIT_SECONDS);
        let said = self.said.lock(rt);
        let (said, _) = self.changed.wait_timeout_while(rt, said, limit, |said| {
            !said.has_ended && (until_end || said.octets.is_empty())
        });
        if until_end && !said.has_ended {
            return None;
        }
        let text = str::from_utf8(said.octets.as_slice()).ok()?;
        String::from_str(rt.alloc(), text).ok()
    }
}
