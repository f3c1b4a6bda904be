//! Which histories may be: each entry meets its conditions on the entries before it.

ghost use Rattle.std.specs.Prelude.{◌≡◌, ◌+◌, ◌≤◌, ◌↔◌, IfOk, IsTrue};
ghost use Rattle.config_values.specs.Config as S;
ghost use Rattle.spool_history.specs.Legal as L;
ghost use Rattle.account.specs.Seen.{act_seen, base_seen, event_seen, history, octets};
ghost use Rattle.history_reader.specs.Seen.{state_seen};

use crate::doing::some_job_may;
use crate::queues::{may_remove, may_start};
use crate::safety::may_grant;
use crate::turning::may_turn;
use account::{Act, Base, Entry};
use config_values::Config;
use history_reader::{State, now};
use std::alloc::{AllocError, Global};

/// Whether the account has room for a job of a queue.
fn has_room(config: &Config, state: &State, queue: u32) -> bool
    ensures { IsTrue result ↔ L.HasRoom (state_seen config.now state.now) queue }
{
    let account = u128::from(config.account());
    let needed = u128::from(config.reserve_of(queue)) + 1;
    needed <= account && state.reserved <= account - needed
}

/// Whether a job may be accepted.
fn may_open(config: &Config, state: &State, job: u64, queue: u32) -> bool
    ensures { IsTrue result ↔ L.MayOpen (state_seen config.now state.now) job queue }
{
    !state.closed
        && config.is_queue(queue)
        && state.jobs.len() < config.max_jobs() as usize
        && has_room(config, state, queue)
        && 0 < job
        && u128::from(job) - 1 == state.accepted
}

/// Whether a job's session may do what an act says.
fn may_act(
    alloc: Global,
    config: &Config,
    state: &State,
    number: u64,
    act: &Act,
) -> Result<bool, AllocError>
    ensures { IfOk result (λ b. IsTrue b
        ↔ L.MayAct octets (state_seen config.now state.now) number (act_seen act.now)) }
{
    if !some_job_may(config, state.jobs.as_slice(), number, act) {
        return Ok(false);
    }
    match act {
        Act::Granted => may_grant(alloc, config, state, number),
        Act::Began { count, .. } => Ok(0 < *count),
        Act::Put { .. } | Act::FileEnded { .. } | Act::Controlled { .. } | Act::Aborted => Ok(true),
    }
}

/// Whether an entry meets its conditions where a spool is left so.
pub fn may(alloc: Global, config: &Config, state: &State, entry: &Entry) -> Result<bool, AllocError>
    ensures { IfOk result (λ b. IsTrue b
        ↔ L.May octets (state_seen config.now state.now) (event_seen entry.now)) }
{
    match entry {
        Entry::Opened { job, queue, .. } => Ok(may_open(config, state, *job, *queue)),
        Entry::OfJob(job, act) => may_act(alloc, config, state, *job, act),
        Entry::AtPrinter(printer, sheet, turn) => {
            if !config.is_printer(*printer) {
                return Ok(false);
            }
            may_turn(alloc, config, state, *printer, sheet, *turn)
        }
        Entry::Removed(queue, jobs) => Ok(may_remove(config, state, *queue, jobs.as_slice())),
        Entry::Started(queue) => Ok(may_start(config, state, *queue)),
        Entry::Closed => Ok(!state.closed),
    }
}

/// Whether each entry meets its conditions on those before it, from a base on. The newest entry stands first. Fails where
/// memory is short.
pub fn is_legal(
    alloc: Global,
    config: &Config,
    base: &Base,
    entries: &[Entry],
) -> Result<bool, AllocError>
    ensures { IfOk result (λ b. IsTrue b
        ↔ L.IsLegal octets config.now (base_seen base.now) (history entries.now)) }
{
    let Some((entry, before)) = entries.split_first() else {
        return Ok(true);
    };
    if !is_legal(alloc, config, base, before)? {
        return Ok(false);
    }
    let state = now(alloc, config, base, before)?;
    may(alloc, config, &state, entry)
}
