//! Whether a page is free, and whether all held jobs can finish.

ghost use Rattle.std.specs.Prelude.{◌≡◌, ◌-◌, ◌<◌, ◌≤◌, ◌↔◌, IfOk, IsTrue, length, map, sum_by};
ghost use Rattle.claims.specs.Safety.{IsSafe};
ghost use Rattle.spool_history.specs.Now as N;
ghost use Rattle.account.specs.declared.entry.Outline.{Outline};
ghost use Rattle.history_reader.specs.Seen.{job_seen, state_seen};

use crate::needs::pages_held;
use crate::table::table_of;
use config_values::Config;
use history_legality::is_safe_now;
use history_reader::{Job, State};
use ordered_safety::{Order, Scratch, Table, check_order};
use std::alloc::{AllocError, Global};

/// What is left of a total without the pages that these jobs hold.
fn beyond(alloc: Global, total: u128, jobs: &[Job]) -> Result<u128, AllocError>
    ensures { IfOk result (λ n. n
        ≡ total - sum_by (λ (v : N.Job Outline). N.pages_held v) (map job_seen jobs.now)) }
{
    let Some((job, rest)) = jobs.split_first() else {
        return Ok(total);
    };
    let held = pages_held(alloc, job)?;
    beyond(alloc, total.saturating_sub(held), rest)
}

/// Whether a page is free.
///
/// AllocError where memory is refused.
pub fn has_free_page(alloc: Global, config: &Config, state: &State) -> Result<bool, AllocError>
    ensures { IfOk result (λ b. IsTrue b ↔ (0 < N.free_pages (state_seen config.now state.now))) }
{
    let free = beyond(alloc, u128::from(config.pages()), state.jobs.as_slice())?;
    Ok(0 < free)
}

/// Whether the jobs of a table can finish in the order of their numbers.
fn finish_in_turn(alloc: Global, scratch: &mut Scratch, table: &Table) -> Result<bool, AllocError>
    requires rows { length table.now.rows ≤ scratch.old.rows }
    requires kinds { length table.now.capacity ≡ scratch.old.kinds }
    ensures safe { IfOk result (λ b. IsTrue b → IsSafe table.now) }
    ensures kept { scratch.new ≡ scratch.old }
{
    let mut numbers = Vec::new(alloc);
    for row in table.rows() {
        numbers.push(row.number)?;
    }
    let order = Order::copy_of(alloc, numbers.as_slice())?;
    let verdict = check_order(scratch, table, &order);
    Ok(verdict.safe)
}

/// Whether an order exists in which all held jobs can finish: that of their numbers, or one that a scan finds. Where no table has their claims, which is so in no spool
/// that a legal account left, that is searched for as the plain reader does.
///
/// AllocError where memory is refused.
pub fn is_safe(alloc: Global, config: &Config, state: &State) -> Result<bool, AllocError>
    ensures { IfOk result (λ b. IsTrue b ↔ N.IsSafeNow (state_seen config.now state.now)) }
{
    let Some(table) = table_of(alloc, config, state.jobs.as_slice())? else {
        return is_safe_now(alloc, config, state);
    };
    let kinds = table.capacity().kinds();
    let mut scratch = Scratch::with_room(alloc, table.len(), kinds)?;
    if finish_in_turn(alloc, &mut scratch, &table)? {
        return Ok(true);
    }
    let verdict = ordered_safety::is_safe(&mut scratch, &table);
    Ok(verdict.safe)
}
