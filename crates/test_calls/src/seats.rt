//! Calls of a spool that threads share, through its seats, and of a core beside it: both have to answer what is written.
//!
//! A block's lines are those of `calls`, and these, which the seats alone are asked:
//!
//! | Call | Answers |
//! |---|---|
//! | `rotate`, `trim` | `segment K entries N before B`: its number, how many entries it has and how many the earlier ones have |
//! | `finish`, which is a block's last call | the same; where the block has a line `finish => 13 SeatsMissing`, a seat is kept back for that |
//!
//! Below a segment stand its entries, each in a line behind two spaces, in order of writing and in the words of `entries`, and
//! then `legal`, where the plain reader finds that each of them met its conditions from the segment's base on. Of one that goes on behind a
//! trim stands there how many entries came since the base, and how many more the account might have for them. The core beside has no trims: it
//! has no more room by them.

use crate::calls::{SPOOL, config_of};
use crate::cores::desk_of;
use crate::desk::Desk;
use crate::entries::push_entry;
use crate::seated::Seats;
use crate::spool::Spool;
use config_values::Config;
use history_legality::is_legal;
use session::{Seated, SessionSeat, SharedSpool};
use shared_spool::{Opened, PrinterSeat, Segment, SpoolLedger, Unfinished};
use spool_core::Core;
use std::alloc::{AllocError, Global};
use std::sync::Wait;
use std::sync::ledger::Ledger;
use test_kit::rows::push_numbers;
use test_kit_seats::{AtSpool, Entries, Sums, open};

/// How many seats there are for sessions: that of the requests, and that of all else.
const SEATS: u32 = 2;

/// What is answered where a block has no configuration that can be read.
const NO_CONFIG: &str = "no configuration\n";

/// Appends a segment of the account, its entries, and whether they are legal, or that they go on behind a trim.
fn push_segment(
    told: &mut String,
    alloc: Global,
    config: &Config,
    segment: &mut Segment,
) -> Result<(), AllocError> {
    let numbers = [
        ("segment", segment.number),
        ("entries", segment.entries.len() as u64),
        ("before", segment.before),
        ("kinds", segment.kinds_before),
        ("handed", segment.handed_before),
    ];
    push_numbers(told, &numbers)?;
    for entry in segment.entries.iter() {
        told.push_str("\n  ")?;
        push_entry(told, entry)?;
    }
    if segment.since != 0 {
        told.push_str("\n  ")?;
        return push_numbers(told, &[("since", segment.since), ("freed", segment.freed)]);
    }
    segment.entries.reverse();
    let legal = is_legal(alloc, config, &segment.base, segment.entries.as_slice())?;
    told.push_str(if legal { "\n  legal" } else { "\n  not legal" })
}

/// Appends a call with what the seats answer, and with what a core does where that is something else.
fn push_call<S: Spool>(
    told: &mut String,
    alloc: Global,
    seats: &mut Desk<S>,
    core: &mut Desk<Core>,
    call: &str,
) -> Result<(), AllocError> {
    let mut by_seats = String::new(alloc);
    seats.push_answer(&mut by_seats, call)?;
    let mut by_core = String::new(alloc);
    core.push_answer(&mut by_core, call)?;
    let (by_seats, by_core) = (by_seats.as_str(), by_core.as_str());
    write!(told, "{call} => {by_seats}")?;
    if by_seats != by_core {
        write!(told, ", and of a core {by_core}")?;
    }
    Ok(())
}

/// Appends the segment that a rotation or a trim hands out, or its refusal. Where the account was rotated the core puts its history away.
fn push_rotation<R: Wait, E: SpoolLedger, K: Ledger, H: Ledger>(
    told: &mut String,
    alloc: Global,
    seats: &mut Seats<'_, R, E, K, H>,
    core: &mut Core,
    call: &str,
) -> Result<(), AllocError> {
    write!(told, "{call} => ")?;
    let rotates = call == "rotate";
    let segment = if rotates {
        seats.spool.rotate(seats.rt, &mut seats.operator)
    } else {
        seats.spool.trim(seats.rt)
    };
    match segment {
        Ok(mut segment) => push_segment(told, alloc, core.config(), &mut segment)?,
        Err(error) => return write!(told, "refused {}", error.number()),
    }
    if !rotates {
        return Ok(());
    }
    if core.held() != 0 {
        return told.push_str(", and of a core: a job is held");
    }
    core.rotated();
    Ok(())
}

/// Appends the calls of a block, each with what it answers.
fn push_lines<R: Wait, E: SpoolLedger, K: Ledger, H: Ledger>(
    told: &mut String,
    alloc: Global,
    seats: &mut Desk<Seats<'_, R, E, K, H>>,
    core: &mut Desk<Core>,
    block: &str,
) -> Result<(), AllocError> {
    for line in block.lines() {
        let (call, _) = line.split_once(" => ").unwrap_or((line, ""));
        // A segment's lines are told with the call that hands it out.
        if line.starts_with("  ") || call == "finish" {
            continue;
        }
        if line.starts_with("# ") || line.starts_with("spool ") {
            told.push_str(line)?;
        } else if call == "rotate" || call == "trim" {
            push_rotation(told, alloc, &mut seats.spool, &mut core.spool, call)?;
        } else {
            push_call(told, alloc, seats, core, call)?;
        }
        told.push_str("\n")?;
    }
    Ok(())
}

/// A spool whose calls have been made, with its seats. One of them may be kept back at first.
#[derive(Drop)]
struct Ended<E: SpoolLedger, K: Ledger, H: Ledger> {
    spool: SharedSpool<E, K, H>,
    sessions: Vec<SessionSeat<E, K, H>>,
    printers: Vec<PrinterSeat<E, K, H>>,
    kept_back: Option<SessionSeat<E, K, H>>,
}

/// Appends a line that a spool's end is refused by, and finishes it with the seat that was kept back.
fn push_unfinished<E: SpoolLedger, K: Ledger, H: Ledger>(
    told: &mut String,
    unfinished: Unfinished<E, K, H>,
    kept_back: Option<SessionSeat<E, K, H>>,
) -> Result<Option<Segment>, AllocError> {
    write!(told, "finish => {unfinished}\n")?;
    let Unfinished {
        spool,
        mut sessions,
        printers,
    } = unfinished;
    if let Some(seat) = kept_back {
        sessions.push(seat)?;
    }
    Ok(spool.finish(sessions, printers).ok())
}

/// Appends a block's last lines: what the spool's end answers.
fn push_finish<E: SpoolLedger, K: Ledger, H: Ledger>(
    told: &mut String,
    alloc: Global,
    ended: Ended<E, K, H>,
    config: &Config,
) -> Result<(), AllocError> {
    let Ended {
        spool,
        sessions,
        printers,
        kept_back,
    } = ended;
    let segment = match spool.finish(sessions, printers) {
        Ok(segment) => Some(segment),
        Err(unfinished) => push_unfinished(told, unfinished, kept_back)?,
    };
    if let Some(mut segment) = segment {
        told.push_str("finish => ")?;
        push_segment(told, alloc, config, &mut segment)?;
    }
    told.push_str("\n")
}

/// Appends the calls of a block through the seats of a spool, which is then finished, each with what it answers.
fn push_block<R: Wait, E: SpoolLedger, K: Ledger, H: Ledger>(
    told: &mut String,
    rt: &R,
    alloc: Global,
    opened: Opened<E, K, H>,
    core: &mut Desk<Core>,
    block: &str,
) -> Result<(), AllocError> {
    let Opened {
        spool,
        mut sessions,
        printers,
    } = opened;
    let Some(operator) = sessions.pop() else {
        return Ok(());
    };
    let Some(seat) = sessions.pop() else {
        return Ok(());
    };
    let seats = Seats {
        rt,
        spool: &spool,
        calls: Seated::new(rt, &spool, seat),
        operator,
        printers,
    };
    let mut seats = Desk::new(alloc, seats, core.page_size, core.printers);
    let pushed = push_lines(told, alloc, &mut seats, core, block);
    let Seats {
        rt: _,
        spool: _,
        calls,
        operator,
        printers,
    } = seats.into_spool();
    sessions.push(operator)?;
    let seat = calls.into_seat();
    let kept_back = if block.contains("SeatsMissing") {
        Some(seat)
    } else {
        sessions.push(seat)?;
        None
    };
    let ended = Ended {
        spool,
        sessions,
        printers,
        kept_back,
    };
    push_finish(told, alloc, ended, core.spool.config())?;
    pushed
}

/// A block, whose spool these words tell.
#[derive(Drop)]
struct Block<'a, R> {
    rt: &'a R,
    spool: &'a str,
    rows: &'a str,
}

impl<R: AllocGlobal + Wait> AtSpool for Block<'_, R> {
    type Done = Result<String, AllocError>;

    /// The lines of the block at this spool, beside a core of the same configuration.
    fn act<E: Entries, K: Sums, H: Sums>(self, opened: Opened<E, K, H>) -> Self::Done {
        let (rt, alloc) = (self.rt, self.rt.alloc());
        let Some(mut core) = desk_of(alloc, self.spool)? else {
            return String::from_str(alloc, NO_CONFIG);
        };
        let mut told = String::new(alloc);
        push_block(&mut told, rt, alloc, opened, &mut core, self.rows)?;
        Ok(told)
    }
}

/// Appends the lines of a block, each call with what it answers.
pub fn seats<R: AllocGlobal + Wait>(
    told: &mut String,
    rt: &R,
    rows: &str,
) -> Result<(), AllocError> {
    let spool = rows.lines().find_map(|line| line.strip_prefix("spool "));
    let spool = spool.unwrap_or(SPOOL);
    match config_of(rt.alloc(), spool)? {
        Some(config) => {
            let text = open(rt.alloc(), config, SEATS, Block { rt, spool, rows })??;
            told.push_str(text.as_str())
        }
        None => told.push_str(NO_CONFIG),
    }
}
