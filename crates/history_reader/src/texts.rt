//! The texts that answer a question for a queue's state and a removal.

ghost use Rattle.std.specs.Prelude.{◌≡◌, ◌≤◌, IfOk, length, map};
ghost use Rattle.spool_history.specs.Texts.{printers_in, removal_text, state_text, stopped_in};
ghost use Rattle.history_reader.specs.Seen.{printer_seen, state_seen};

use crate::state::{Printer, State};
use config_values::Config;
use lpd_values::Octets;
use std::alloc::{AllocError, Global};
use told_jobs::{Shown, StateQuery};

/// How many of these printers serve a queue.
fn count_printers(queue: u32, printers: &[Printer]) -> usize
    ensures value { result ≡ length (printers_in queue (map printer_seen printers.now)) }
    ensures within { result ≤ length printers.now }
{
    let Some((first, rest)) = printers.split_first() else {
        return 0;
    };
    usize::from(first.queue == queue) + count_printers(queue, rest)
}

/// How many of these printers serve a queue and are stopped.
fn count_stopped(queue: u32, printers: &[Printer]) -> usize
    ensures value { result
        ≡ length (stopped_in queue (map printer_seen printers.now)) }
    ensures within { result ≤ length printers.now }
{
    let Some((first, rest)) = printers.split_first() else {
        return 0;
    };
    usize::from(first.queue == queue && first.stopped) + count_stopped(queue, rest)
}

/// What a queue's state is answered with: a line for the queue, and then the lines of the jobs that the list chooses,
/// or of all listed ones where it is empty.
pub fn state_text(
    alloc: Global,
    config: &Config,
    state: &State,
    queue: u32,
    list: &[Octets],
    long: bool,
) -> Result<Vec<u8>, AllocError>
    ensures { IfOk result (λ text. text.items
        ≡ state_text (state_seen config.now state.now) queue list.now long) }
{
    let query = StateQuery { queue, list, long };
    let shown = Shown {
        name: config.name_of(queue),
        serving: count_printers(queue, state.printers.as_slice()),
        stopped: count_stopped(queue, state.printers.as_slice()),
    };
    told_jobs::state_text(alloc, state, &query, &shown)
}

/// What a removal is answered with: a line for each job that the agent removes by the list, or of the active job alone
/// where it is empty; or a line that nothing was removed.
pub fn removal_text(
    alloc: Global,
    config: &Config,
    state: &State,
    queue: u32,
    agent: &[u8],
    list: &[Octets],
) -> Result<Vec<u8>, AllocError>
    ensures { IfOk result (λ text. text.items
        ≡ removal_text (state_seen config.now state.now) queue agent.now list.now) }
{
    told_jobs::removal_text(alloc, state, queue, agent, list)
}
