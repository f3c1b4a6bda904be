//! What a job holds and may still need.

ghost use Rattle.std.specs.Prelude.{◌≡◌, ◌≤◌, IfOk};
ghost use Rattle.spool_history.specs.Now as N;
ghost use Rattle.history_reader.specs.Seen.{job_seen};

use crate::kept::pages_kept;
use config_values::Config;
use history_reader::Job;
use std::alloc::{AllocError, Global};

/// The pages that it holds.
///
/// AllocError where memory is refused.
pub(crate) fn pages_held(alloc: Global, job: &Job) -> Result<u128, AllocError>
    ensures { IfOk result (λ n. n ≡ N.pages_held (job_seen job.now)) }
{
    if job.ended {
        return Ok(
            u128::from(job.lent) + u128::from(job.handed).saturating_sub(u128::from(job.back)),
        );
    }
    if !job.is_received() {
        return Ok(u128::from(job.granted));
    }
    pages_kept(alloc, job)
}

/// The pages that it may still need.
pub(crate) fn pages_needed(config: &Config, job: &Job) -> u128
    ensures { result ≡ N.pages_needed config.now (job_seen job.now) }
{
    if job.ended || job.is_received() {
        return 0;
    }
    u128::from(config.limit_of(job.queue)).saturating_sub(u128::from(job.granted))
}

/// The printers that it holds.
pub(crate) fn printers_held(job: &Job) -> u32
    ensures value { result ≡ N.printers_held (job_seen job.now) }
    ensures within { result ≤ 1 }
{
    if job.handed == 0 { 0 } else { 1 }
}

/// The printers that it may still need.
pub(crate) fn printers_needed(job: &Job) -> u32
    ensures value { result ≡ N.printers_needed (job_seen job.now) }
    ensures within { result ≤ 1 }
{
    if job.ended || job.handed != 0 { 0 } else { 1 }
}
