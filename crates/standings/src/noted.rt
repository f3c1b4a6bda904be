//! What the edge of a server notes beside its spool.

ghost use Rattle.std.specs.Prelude.{◌≡◌};
ghost use Rattle.standings.specs.Noted.{is_held};

use crate::numbers::JobNumbers;
use crate::turns::FinishingTurn;

/// Since when something is the matter with a printer, and what.
#[derive(Drop)]
pub struct SeenTrouble {
    /// For how many seconds.
    pub seconds: u64,
    /// What is the matter.
    pub cause: String,
}

/// What is noted of a printer.
#[derive(Drop)]
pub struct PrinterNotes {
    /// The fault by which it was stopped, where that is known.
    pub stop: Option<SeenTrouble>,
    /// Why nothing of the page at it goes: it isn't reached, or takes nothing for long.
    pub unreached: Option<SeenTrouble>,
    /// The last job that was printed there of which it isn't known whether its last octets came.
    pub doubt: Option<u64>,
}

/// What the edge of a server notes beside its spool.
#[derive(Clone, Copy)]
pub struct EdgeNotes<'a> {
    /// Which queues are held, in the order of the configuration; the others run.
    pub held: &'a [bool],
    /// The printers, by their numbers.
    pub printers: &'a [PrinterNotes],
    /// The numbers of the jobs whose sessions wait for a page.
    pub put_off: &'a [u64],
    /// The turns in which the held jobs can finish; none where there is no such order.
    pub turns: Option<&'a [FinishingTurn]>,
    /// What the held jobs are called outside of the spool, in order of acceptance.
    pub numbers: &'a [JobNumbers],
}

/// Whether the queue of this number is held. Queues are numbered from 1.
pub fn is_held(held: &[bool], queue: u32) -> bool
    ensures { result ≡ is_held held.now queue }
{
    match (queue as usize).checked_sub(1) {
        Some(at) => held.get(at).copied().unwrap_or(false),
        None => false,
    }
}
