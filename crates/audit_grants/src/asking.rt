//! Which job may ask for a page.

ghost use Rattle.std.specs.Prelude.{◌↔◌, IsTrue, map};
ghost use Rattle.spool_history.specs.Events as E;
ghost use Rattle.spool_history.specs.Legal as L;
ghost use Rattle.account.specs.Seen.{octets};
ghost use Rattle.history_reader.specs.Seen.{job_seen};

use config_values::Config;
use history_reader::{Job, is_open_in};

/// Whether a job may ask for a page: it is being received, a file of it is open, no page is lent to it, and it was lent
/// fewer than its queue's limit.
fn asks(config: &Config, job: &Job) -> bool
    ensures { IsTrue result ↔ L.JobMay octets config.now E.Act.Granted (job_seen job.now) }
{
    !job.ended
        && !job.is_received()
        && is_open_in(job.files.as_slice())
        && !job.lent
        && job.granted < u64::from(config.limit_of(job.queue))
}

/// Whether a job of this number may ask for a page.
pub fn may_ask(config: &Config, jobs: &[Job], number: u64) -> bool
    ensures { IsTrue result
        ↔ L.HasJob (map job_seen jobs.now) number (L.JobMay octets config.now E.Act.Granted) }
{
    let Some((job, rest)) = jobs.split_first() else {
        return false;
    };
    if job.number == number && asks(config, job) {
        return true;
    }
    may_ask(config, rest, number)
}
