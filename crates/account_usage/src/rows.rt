//! Rows of a table of usage.

ghost use Rattle.std.specs.Prelude.{◌≡◌, ◌<◌, ◌+◌, ◌-◌, ◌^◌, OnOk, min};
ghost use Rattle.account_usage.specs.Rows.{held_printed, held_sent, names_with, row_names, rows_printed, rows_sent};

use crate::held::HeldJob;
use indexmap::IndexMap;
use std::alloc::{AllocError, Global};
use std::hash::RandomState;

/// What is told of a user, a host or a queue.
#[derive(Clone, Copy, Debug, PartialEq, Eq)]
pub struct Totals {
    /// How many jobs ended in segments that count.
    pub jobs: u64,
    /// The octets of the pages that were put into their files, up to 2^64 - 1.
    pub sent: u64,
    /// The octets of their pages that were printed, up to 2^64 - 1. A page that is printed again counts again.
    pub printed: u64,
}

/// The totals of each name, in the order in which the names came.
pub(crate) type Rows = IndexMap<Vec<u8>, Totals, RandomState>;

impl Totals {
    /// These and more, each up to 2^64 - 1.
    fn plus(self, more: Totals) -> Totals
        ensures jobs { result.jobs ≡ min (self.jobs + more.jobs) (2 ^ 64 - 1) }
        ensures sent { result.sent ≡ min (self.sent + more.sent) (2 ^ 64 - 1) }
        ensures printed { result.printed ≡ min (self.printed + more.printed) (2 ^ 64 - 1) }
    {
        Totals {
            jobs: self.jobs.saturating_add(more.jobs),
            sent: self.sent.saturating_add(more.sent),
            printed: self.printed.saturating_add(more.printed),
        }
    }
}

/// Adds to the row of a name, which is made behind the others where there is none.
///
/// AllocError where memory for it is refused.
pub(crate) fn add_to_row(
    rows: &mut Rows,
    alloc: Global,
    name: &[u8],
    more: Totals,
) -> Result<(), AllocError>
    ensures names { OnOk result (row_names rows.new.entries
        ≡ names_with name.now (row_names rows.old.entries)) }
    ensures sent { OnOk result (rows_sent rows.old.entries + more.sent < 2 ^ 64
        → rows_sent rows.new.entries
        ≡ rows_sent rows.old.entries + more.sent) }
    ensures printed { OnOk result (rows_printed rows.old.entries + more.printed < 2 ^ 64
        → rows_printed rows.new.entries
        ≡ rows_printed rows.old.entries + more.printed) }
{
    if let Some(at) = rows.get_index_of(name) {
        let totals = &mut rows[at];
        *totals = totals.plus(more);
        return Ok(());
    }
    rows.insert(Vec::from_slice(alloc, name)?, more)?;
    Ok(())
}

/// Adds these jobs to their rows, each as so many.
///
/// AllocError where memory for a row is refused.
pub(crate) fn settle(
    rows: &mut Rows,
    alloc: Global,
    held: &[HeldJob],
    jobs: u64,
) -> Result<(), AllocError>
    ensures sent { OnOk result (rows_sent rows.old.entries
        + held_sent held.now < 2 ^ 64
        → rows_sent rows.new.entries
        ≡ rows_sent rows.old.entries + held_sent held.now) }
    ensures printed { OnOk result (rows_printed rows.old.entries
        + held_printed held.now < 2 ^ 64
        → rows_printed rows.new.entries
        ≡ rows_printed rows.old.entries + held_printed held.now) }
{
    for job in held {
        let more = Totals {
            jobs,
            sent: job.sent,
            printed: job.printed,
        };
        add_to_row(rows, alloc, job.name.as_slice(), more)?;
    }
    Ok(())
}
