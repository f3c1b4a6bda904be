//! Where a history leaves a spool.

ghost use Rattle.std.specs.Prelude.{◌≡◌, ◌≤◌, ◌+◌, ◌*◌, ◌^◌, ◌++◌, IfOk, OnOk, filter, length, map, sum_by};
ghost use Rattle.spool_history.specs.Now as N;
ghost use Rattle.spool_history.specs.Said as D;
ghost use Rattle.config_values.specs.Config as S;
ghost use Rattle.account.specs.Seen.{base_seen, history};
ghost use Rattle.history_reader.specs.Seen.{job_seen, opening_seen, printer_seen, state_seen};

use crate::jobs::job_in;
use crate::printers::{is_closed, printer_in};
use crate::said::openings;
use crate::state::{Job, Opening, Printer, State};
use account::{Base, Entry};
use config_values::Config;
use std::alloc::{AllocError, Global};

/// Puts what a history says of each of these jobs behind those, where the job is held.
fn add_held(
    jobs: &mut Vec<Job>,
    alloc: Global,
    entries: &[Entry],
    opened: &[Opening],
) -> Result<(), AllocError>
    ensures { OnOk result (map job_seen jobs.new.items ≡ map job_seen jobs.old.items
        ++ filter N.is_held (map (N.job_of (history entries.now)) (map opening_seen opened.now))) }
{
    let Some((first, rest)) = opened.split_first() else {
        return Ok(());
    };
    let job = job_in(alloc, entries, first)?;
    if job.is_held() {
        jobs.push(job)?;
    }
    add_held(jobs, alloc, entries, rest)
}

/// The reserves of these jobs, in entries.
fn reserves_of(config: &Config, opened: &[Opening]) -> u128
    ensures value { result
        ≡ sum_by (λ (o : D.Opening). S.reserve_of config.now o.queue)
        (map opening_seen opened.now) }
    ensures within { result ≤ 2 ^ 40 * length opened.now }
{
    let Some((first, rest)) = opened.split_first() else {
        return 0;
    };
    u128::from(config.reserve_of(first.queue)) + reserves_of(config, rest)
}

/// So many entries, and the reserves of these jobs.
fn counted(config: &Config, before: u64, opened: &[Opening]) -> u128
    ensures { result
        ≡ before
        + sum_by (λ (o : D.Opening). S.reserve_of config.now o.queue)
        (map opening_seen opened.now) }
{
    u128::from(before) + reserves_of(config, opened)
}

/// What a history says of each printer, in order of their numbers.
fn printers_in(
    alloc: Global,
    config: &Config,
    base: &Base,
    entries: &[Entry],
) -> Result<Vec<Printer>, AllocError>
    ensures { IfOk result (λ v. map printer_seen v.items
        ≡ map (N.printer_of config.now (base_seen base.now) (history entries.now))
        (N.up_to (S.printer_count config.now))) }
{
    let mut printers = Vec::new(alloc);
    for before in 0..config.printer_count() {
        printers.push(printer_in(config, base, entries, before as u32 + 1))?;
    }
    Ok(printers)
}

/// Where entries that came after a base leave a spool. The newest entry stands first. Fails where memory is short.
pub fn now(
    alloc: Global,
    config: &Config,
    base: &Base,
    entries: &[Entry],
) -> Result<State, AllocError>
    ensures { IfOk result (λ v. state_seen config.now v
        ≡ N.now config.now (base_seen base.now) (history entries.now)) }
{
    let opened = openings(alloc, entries)?;
    let opened = opened.as_slice();
    let mut jobs = Vec::new(alloc);
    add_held(&mut jobs, alloc, entries, opened)?;
    Ok(State {
        jobs,
        accepted: u128::from(base.accepted) + opened.len() as u128,
        reserved: counted(config, base.reserved, opened),
        printers: printers_in(alloc, config, base, entries)?,
        closed: is_closed(base, entries),
    })
}
