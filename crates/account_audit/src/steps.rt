//! Where one more entry leaves a spool.

ghost use Rattle.std.specs.Prelude.{◌≡◌, ◌<◌, ◌+◌, ◌^◌, ◌↔◌, IfOk, IsTrue, OnOk};
ghost use Rattle.spool_history.specs.Events as E;
ghost use Rattle.spool_history.specs.Legal as L;
ghost use Rattle.spool_history.specs.Steps as T;
ghost use Rattle.account.specs.Seen.{event_seen, octets};
ghost use Rattle.history_reader.specs.Seen.{state_seen};
ghost use Rattle.account_audit.specs.Audited.{AreFew};

use crate::jobs::{move_jobs, open_job};
use crate::printers::{start, turn};
use account::{Act, Entry};
use audit_grants::{has_free_page, is_safe, may_ask};
use config_values::Config;
use history_legality::may;
use history_reader::State;
use std::alloc::{AllocError, Global};

/// Makes of a spool what an entry makes of it that may come there, where so many entries came before.
fn advance(
    state: &mut State,
    alloc: Global,
    config: &Config,
    entry: &Entry,
    before: u64,
) -> Result<(), AllocError>
    requires may { L.May octets (state_seen config.now state.old) (event_seen entry.now) }
    requires few { AreFew before state.old.jobs.items }
    requires number { before < 2 ^ 63 }
    ensures value { OnOk result (state_seen config.now state.new
        ≡ T.after (event_seen entry.now) (state_seen config.now state.old)) }
    ensures few { OnOk result (AreFew (before + 1) state.new.jobs.items) }
{
    move_jobs(&mut state.jobs, alloc, entry, before)?;
    match entry {
        Entry::Opened { job, sender, queue } => {
            open_job(&mut state.jobs, alloc, *job, *sender, *queue, before + 1)?;
            let _account = config.account();
            state.accepted += 1;
            state.reserved += u128::from(config.reserve_of(*queue));
        }
        Entry::AtPrinter(printer, sheet, became) => {
            turn(&mut state.printers, *printer, sheet, *became)
        }
        Entry::Started(queue) => start(&mut state.printers, *queue),
        Entry::Closed => state.closed = true,
        Entry::OfJob(_, _) | Entry::Removed(_, _) => {}
    }
    Ok(())
}

/// Lends a page to the job of this number, if that may be, where so many entries came before.
fn grant(
    state: &mut State,
    alloc: Global,
    config: &Config,
    entry: &Entry,
    number: u64,
    before: u64,
) -> Result<bool, AllocError>
    requires is { event_seen entry.now ≡ E.Event.OfJob number E.Act.Granted }
    requires few { AreFew before state.old.jobs.items }
    requires number { before < 2 ^ 63 }
    ensures exact { IfOk result (λ b. IsTrue b
        ↔ L.May octets (state_seen config.now state.old) (event_seen entry.now)) }
    ensures value { IfOk result (λ b. IsTrue b → state_seen config.now state.new
        ≡ T.after (event_seen entry.now) (state_seen config.now state.old)) }
    ensures few { IfOk result (λ b. IsTrue b → AreFew (before + 1) state.new.jobs.items) }
{
    if !may_ask(config, state.jobs.as_slice(), number) || !has_free_page(alloc, config, state)? {
        return Ok(false);
    }
    move_jobs(&mut state.jobs, alloc, entry, before)?;
    let safe = is_safe(alloc, config, state)?;
    Ok(safe)
}

/// Makes of a spool what an entry makes of it, if it may come there, where so many entries came before. Whether a page may
/// be lent is decided by `audit_grants`, and all else as the plain reader does.
pub(crate) fn enter(
    state: &mut State,
    alloc: Global,
    config: &Config,
    entry: &Entry,
    before: u64,
) -> Result<bool, AllocError>
    requires few { AreFew before state.old.jobs.items }
    requires number { before < 2 ^ 63 }
    ensures exact { IfOk result (λ b. IsTrue b
        ↔ L.May octets (state_seen config.now state.old) (event_seen entry.now)) }
    ensures value { IfOk result (λ b. IsTrue b → state_seen config.now state.new
        ≡ T.after (event_seen entry.now) (state_seen config.now state.old)) }
    ensures few { IfOk result (λ b. IsTrue b → AreFew (before + 1) state.new.jobs.items) }
{
    if let Entry::OfJob(number, Act::Granted) = entry {
        return grant(state, alloc, config, entry, *number, before);
    }
    if !may(alloc, config, state, entry)? {
        return Ok(false);
    }
    advance(state, alloc, config, entry, before)?;
    Ok(true)
}
