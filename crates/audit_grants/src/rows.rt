//! Rows of a table that hold something.

ghost use Rattle.std.specs.Prelude.{◌≡◌, ◌+◌, ◌<◌, ◌≤◌, All, IfOk, IfSome, IsTrue, length};
ghost use Rattle.counts.specs.Amounts.{amount};
ghost use Rattle.claims.specs.Claims.{row_at};
ghost use Rattle.spool_history.specs.Now as N;
ghost use Rattle.history_reader.specs.Seen.{job_seen};
ghost use Rattle.audit_grants.specs.Lent.{lent, HasRow};

use crate::amounts::amounts;
use crate::needs::{pages_held, pages_needed, printers_held, printers_needed};
use claims::{OpenError, Table};
use config_values::Config;
use history_reader::Job;
use std::alloc::{AllocError, Global};

/// Gives the row so many of a kind, which are free and which it needs.
fn lend(table: &mut Table, row: usize, kind: usize, count: u32)
    requires here { row < length table.old.rows }
    requires kind { kind < length table.old.capacity }
    requires free { count ≤ amount table.old.free kind }
    requires needed { count ≤ amount (row_at table.old.rows row).need kind }
    ensures { table.new ≡ lent table.old row kind count }
{
    let _kinds = table.capacity().kinds();
    for n in 0..count {
        table.grant(row, kind);
    }
}

/// A number, where it has 32 bits.
fn small(number: u128) -> Option<u32>
    ensures { IfSome result (λ n. n ≡ number) }
{
    u32::try_from(number).ok()
}

/// The sum of both, where it has 32 bits.
fn sum(held: u32, needed: u128) -> Option<u32>
    ensures { IfSome result (λ n. n ≡ held + needed) }
{
    let sum = u128::from(held).checked_add(needed)?;
    u32::try_from(sum).ok()
}

/// Adds the row of a job, where the table can have it.
///
/// AllocError where memory is refused.
pub(crate) fn add_row(
    table: &mut Table,
    alloc: Global,
    config: &Config,
    job: &Job,
) -> Result<bool, AllocError>
    requires capacity { table.old.capacity ≡ N.capacity config.now }
    requires greater { All (λ row. row.number < job.now.number) table.old.rows }
    ensures { IfOk result (λ b. IsTrue b
        → HasRow table.old (N.row_of config.now (job_seen job.now)) table.new) }
{
    let Some(held) = small(pages_held(alloc, job)?) else {
        return Ok(false);
    };
    let Some(total) = sum(held, pages_needed(config, job)) else {
        return Ok(false);
    };
    let taken = printers_held(job);
    let (free, queue) = (table.free(), job.queue as usize);
    if !config.is_queue(job.queue) || held > free.get(0) || taken > free.get(queue) {
        return Ok(false);
    }
    let printers = taken + printers_needed(job);
    let need = amounts(alloc, config, total, job.queue, printers)?;
    let row = table.len();
    match table.open_row(job.number, job.sender, job.queue, &need) {
        Ok(()) => {}
        Err(OpenError::Memory) => return Err(AllocError),
        Err(_) => return Ok(false),
    }
    lend(table, row, 0, held);
    lend(table, row, queue, taken);
    Ok(true)
}
