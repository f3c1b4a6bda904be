//! The banker's reckoning: in which turns all held jobs can finish.

ghost use Rattle.std.specs.Prelude.{◌≡◌, ◌+◌, ◌++◌, IfOk, OnOk, [], option_copied};
ghost use Rattle.counts.specs.Amounts.{amount};
ghost use Rattle.standings.specs.Turns.{claim_of, keeper_before, row_of, turns_from};

use claims::{Row, Table};
use counts::Counts;
use std::alloc::{AllocError, Global};

/// A job in its turn of a finishing order: pages that it holds and may still need, and those that are free then.
#[derive(Clone, Copy)]
pub struct FinishingTurn {
    /// The number of the job.
    pub job: u64,
    /// The pages that it holds.
    pub holds: u64,
    /// The pages that it may still ask for.
    pub needs: u64,
    /// The pages that are free in its turn.
    pub free: u64,
}

impl FinishingTurn {
    /// The job's claim: the pages that it holds, and those that it may still ask for.
    pub fn claim(&self) -> u64
        ensures { result ≡ claim_of self.now }
    {
        self.holds.saturating_add(self.needs)
    }
}

/// How many pages these amounts have.
pub fn pages_of(amounts: &Counts) -> u32
    ensures { result ≡ amount amounts.now 0 }
{
    amounts.as_slice().first().copied().unwrap_or(0)
}

/// The row of a job.
fn row_of(rows: &[Row], job: u64) -> Option<&Row>
    ensures { option_copied result ≡ row_of rows.now job }
{
    let (first, rest) = rows.split_first()?;
    if first.number == job {
        return Some(first);
    }
    row_of(rest, job)
}

/// The turns of a finishing order of these claims, in that order.
///
/// AllocError where memory for them is refused.
pub fn turns_of(
    alloc: Global,
    claims: &Table,
    order: &[u64],
) -> Result<Vec<FinishingTurn>, AllocError>
    ensures { IfOk result (λ turns. turns.items
        ≡ turns_from claims.now.rows (amount claims.now.free 0) order.now) }
{
    let mut turns = Vec::new(alloc);
    let mut free = u64::from(pages_of(claims.free()));
    for job in order {
        let Some(row) = row_of(claims.rows(), *job) else {
            continue;
        };
        let (holds, needs) = (
            u64::from(pages_of(&row.held)),
            u64::from(pages_of(&row.need)),
        );
        turns.push(FinishingTurn {
            job: *job,
            holds,
            needs,
            free,
        })?;
        free = free.saturating_add(holds);
    }
    Ok(turns)
}

/// The first job before this one in the order that may need all that is free in its turn: where this one got a page more, that one
/// would lack it.
pub fn kept_for(turns: &[FinishingTurn], job: u64) -> Option<u64>
    ensures { result ≡ keeper_before job turns.now }
{
    let (turn, later) = turns.split_first()?;
    if turn.job == job {
        return None;
    }
    if turn.needs == turn.free {
        return Some(turn.job);
    }
    kept_for(later, job)
}
