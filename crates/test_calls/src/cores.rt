//! Calls of a core, and what they answer.
//!
//! A block's lines are those of `calls`, and these, which a core alone is asked:
//!
//! | Call | Answers |
//! |---|---|
//! | `reserve`, `still`, `stopped QUEUE`, `queued QUEUE` | the numbers: entries that are counted, and of these the ones that may still come; printers, and jobs |
//! | `wanted J`: whether a job goes on | `yes`, `no` |
//! | `opens QUEUE`, `controls J`: whether a job, a control file would be refused | `yes` |
//! | `file J` | `file F page N`, `no file` |
//! | `chosen QUEUE AGENT WORD..` | `jobs J..` |
//! | `removal QUEUE AGENT WORD..`: what a removal would take, and its text | `queue Q jobs J.., TEXT` |
//! | `starts QUEUE`: what a start would start | `queue Q stopped N` |
//! | `snapshot`, of what the core keeps | `accepted N reserved N printers N, job J of SENDER in Q octets N handed N by USER at HOST, ..` |
//! | `rotate`, where no job is held | `yes` |
//!
//! `other CALL` is a call of a second core, for which a line `other spool ..` has a configuration, and `trade` exchanges all
//! pages that are kept at the two.

use crate::calls::{BAD_ROW, SPOOL, config_of, push_answer};
use crate::desk::Desk;
use lpd_commands::Refusal;
use request_calls::Answer;
use spool_core::Core;
use std::alloc::{AllocError, Global};
use test_kit::rows::{number, push_numbers, word, words};

/// A desk of a core on the configuration that these words tell, or None where they tell none.
pub fn desk_of(alloc: Global, told: &str) -> Result<Option<Desk<Core>>, AllocError> {
    let Some(config) = config_of(alloc, told)? else {
        return Ok(None);
    };
    let (page_size, printers) = (config.page_size(), config.printer_count());
    let core = Core::new(alloc, config)?;
    Ok(Some(Desk::new(alloc, core, page_size, printers)))
}

/// Appends jobs by their numbers.
fn push_jobs(told: &mut String, jobs: &[u64]) -> Result<(), AllocError> {
    told.push_str("jobs")?;
    for job in jobs.iter() {
        write!(told, " {job}")?;
    }
    Ok(())
}

/// Appends the jobs that a removal would take, and with the whole of it the number of the queue and the text.
fn push_removal(
    told: &mut String,
    alloc: Global,
    core: &Core,
    is_whole: bool,
    rest: &str,
) -> Result<(), Refusal> {
    let (queue, rest) = word(rest);
    let (agent, list) = word(rest);
    let list = words(alloc, list)?;
    let (queue, agent, list) = (queue.as_bytes(), agent.as_bytes(), list.as_slice());
    if !is_whole {
        let jobs = core.chosen(queue, agent, list)?;
        return Ok(push_jobs(told, jobs.as_slice())?);
    }
    let removal = core.removal_of(queue, agent, list)?;
    write!(told, "queue {} ", removal.queue)?;
    push_jobs(told, removal.numbers.as_slice())?;
    write!(told, ", {}", removal.text.as_slice().escape_ascii())?;
    Ok(())
}

/// Appends what a snapshot has: how many jobs were accepted, entries counted and printers are there, and the held jobs.
fn push_snapshot(told: &mut String, core: &Core) -> Result<(), Refusal> {
    let seen = core.snapshot()?;
    let printers = seen.printers.len() as u64;
    let counted = [
        ("accepted", seen.accepted),
        ("reserved", seen.reserved),
        ("printers", printers),
    ];
    push_numbers(told, &counted)?;
    for job in seen.jobs.iter() {
        let (user, host) = (job.user.as_slice(), job.host.as_slice());
        let (number, sender, queue) = (job.number, job.sender, job.queue);
        write!(told, ", job {number} of {sender} in {queue}")?;
        write!(told, " octets {} handed {}", job.octets, job.handed)?;
        write!(
            told,
            " by {} at {}",
            user.escape_ascii(),
            host.escape_ascii()
        )?;
    }
    Ok(())
}

/// Appends yes where nothing is refused.
fn push_yes(told: &mut String, refusal: Option<Refusal>) -> Result<(), Refusal> {
    match refusal {
        Some(refusal) => Err(refusal),
        None => Ok(told.push_str("yes")?),
    }
}

/// Appends what a core alone is asked. Answers false where the call is none of these.
fn is_told(told: &mut String, alloc: Global, core: &mut Core, call: &str) -> Result<bool, Refusal> {
    let (call, rest) = word(call);
    match call {
        "file" => match core.open_file(number(rest)) {
            Some(page) => push_numbers(told, &[("file", page.file), ("page", page.number)])?,
            None => told.push_str("no file")?,
        },
        "stopped" | "queued" => {
            let Some(queue) = core.queue_number(rest.as_bytes()) else {
                return Err(Refusal::UnknownQueue);
            };
            let count = if call == "stopped" {
                u64::from(core.stopped_in(queue))
            } else {
                core.held_in(queue) as u64
            };
            push_numbers(told, &[(call, count)])?;
        }
        "wanted" => told.push_str(if core.is_wanted(number(rest)) {
            "yes"
        } else {
            "no"
        })?,
        "free" => push_numbers(told, &[("free", core.free() as u64)])?,
        "reserve" => push_numbers(told, &[("reserve", core.counted_reserve())])?,
        "still" => write!(told, "still {}", core.still_reserved())?,
        "snapshot" => push_snapshot(told, core)?,
        "chosen" | "removal" => push_removal(told, alloc, core, call == "removal", rest)?,
        "starts" => {
            let start = core.start_of(rest.as_bytes())?;
            let (number, stopped) = (u64::from(start.queue), u64::from(start.stopped));
            push_numbers(told, &[("queue", number), ("stopped", stopped)])?;
        }
        "opens" => push_yes(told, core.open_refusal(rest.as_bytes()))?,
        "controls" => push_yes(told, core.control_refusal(number(rest)))?,
        "rotate" if core.held() == 0 => {
            core.rotated();
            told.push_str("yes")?;
        }
        "rotate" => told.push_str(BAD_ROW)?,
        _ => return Ok(false),
    }
    Ok(true)
}

/// Appends a call of a core, with what is answered; or the configuration with which the core begins anew.
fn push_line(
    told: &mut String,
    alloc: Global,
    desk: &mut Desk<Core>,
    call: &str,
) -> Result<(), AllocError> {
    if let Some(spool) = call.strip_prefix("spool ") {
        told.push_str(call)?;
        match desk_of(alloc, spool)? {
            Some(new) => *desk = new,
            None => write!(told, " => {BAD_ROW}")?,
        }
        return Ok(());
    }
    write!(told, "{call} => ")?;
    match is_told(told, alloc, &mut desk.spool, call) {
        Ok(true) => Ok(()),
        Ok(false) => desk.push_answer(told, call),
        Err(refusal) => push_answer(told, &Answer::Refused(refusal)),
    }
}

/// Appends the lines of a block, each call with what these cores answer.
fn push_lines(
    told: &mut String,
    alloc: Global,
    first: &mut Desk<Core>,
    other: &mut Desk<Core>,
    block: &str,
) -> Result<(), AllocError> {
    for line in block.lines() {
        let (call, _) = line.split_once(" => ").unwrap_or((line, ""));
        if line.starts_with("# ") {
            told.push_str(line)?;
        } else if call == "trade" {
            first.trade(other);
            told.push_str("trade => yes")?;
        } else if let Some(call) = call.strip_prefix("other ") {
            told.push_str("other ")?;
            push_line(told, alloc, other, call)?;
        } else {
            push_line(told, alloc, first, call)?;
        }
        told.push_str("\n")?;
    }
    Ok(())
}

/// Appends the lines of a block, with a second core beside this one.
fn push_beside(
    told: &mut String,
    alloc: Global,
    first: &mut Desk<Core>,
    block: &str,
) -> Result<(), AllocError> {
    match desk_of(alloc, SPOOL)? {
        Some(mut other) => push_lines(told, alloc, first, &mut other, block),
        None => Ok(()),
    }
}

/// Appends the lines of a block, each call with what it answers. Each core is made in a function of its own, since its drop at every
/// early return of another is dear to prove.
pub fn calls(told: &mut String, alloc: Global, block: &str) -> Result<(), AllocError> {
    match desk_of(alloc, SPOOL)? {
        Some(mut first) => push_beside(told, alloc, &mut first, block),
        None => Ok(()),
    }
}
