//! The table of the claims that held jobs have.

ghost use Rattle.std.specs.Prelude.{◌≡◌, IfOk, IfSome, map};
ghost use Rattle.audit_grants.specs.Lent.{IsTableFor};
ghost use Rattle.history_reader.specs.Seen.{job_seen};

use crate::amounts::capacity;
use crate::rows::add_row;
use claims::Table;
use config_values::Config;
use history_reader::Job;
use std::alloc::{AllocError, Global};

/// The table of the claims that these jobs have, or None where there is none: their numbers don't rise, they are too
/// many, or they hold or need more than there is.
///
/// AllocError where memory is refused.
pub(crate) fn table_of(
    alloc: Global,
    config: &Config,
    jobs: &[Job],
) -> Result<Option<Table>, AllocError>
    ensures { IfOk result (λ r. IfSome r (IsTableFor config.now (map job_seen jobs.now))) }
{
    let capacity = capacity(alloc, config)?;
    let mut table = Table::new(alloc, &capacity, config.max_jobs())?;
    let mut above: u128 = 0;
    for job in jobs {
        let number = u128::from(job.number);
        if number < above || !add_row(&mut table, alloc, config, job)? {
            return Ok(None);
        }
        above = number + 1;
    }
    Ok(Some(table))
}
