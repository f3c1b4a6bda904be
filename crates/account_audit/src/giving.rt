//! What may be given back of what is counted.

ghost use Rattle.std.specs.Prelude.{◌≡◌, ◌-◌, count_by, map, sum_by};
ghost use Rattle.config_values.specs.Config as S;
ghost use Rattle.spool_history.specs.Now as N;
ghost use Rattle.account.specs.declared.entry.Outline.{Outline};
ghost use Rattle.history_reader.specs.Seen.{job_seen, printer_seen, state_seen};
ghost use Rattle.account_audit.specs.Giving.{given_back};

use crate::audit::Audit;
use config_values::Config;
use history_reader::{Job, Printer, State};

/// A number of entries less those that these jobs may still add.
fn less_jobs(rest: u128, config: &Config, jobs: &[Job]) -> u128
    ensures { result ≡ rest - sum_by (λ (job : N.Job Outline). S.reserve_of config.now job.queue)
        (map job_seen jobs.now) }
{
    let Some((first, others)) = jobs.split_first() else {
        return rest;
    };
    let reserve = u128::from(config.reserve_of(first.queue));
    less_jobs(rest.saturating_sub(reserve), config, others)
}

/// A number of entries less one for each of these printers that is stopped.
fn less_stopped(rest: u128, printers: &[Printer]) -> u128
    ensures { result ≡ rest - count_by (λ (printer : N.Printer Outline). printer.stopped)
        (map printer_seen printers.now) }
{
    let Some((first, others)) = printers.split_first() else {
        return rest;
    };
    let start = u128::from(first.stopped);
    less_stopped(rest.saturating_sub(start), others)
}

/// How much of what is counted a trim gives back that finds a spool so, where so much was given back before.
fn given_back_of(config: &Config, state: &State, freed: u64) -> u128
    ensures { result ≡ given_back (state_seen config.now state.now) freed }
{
    let rest = state.reserved.saturating_sub(u128::from(freed));
    let rest = less_jobs(rest, config, state.jobs.as_slice());
    less_stopped(rest, state.printers.as_slice())
}

impl Audit {
    /// How much of what is counted a trim gives back here, where so much was given back before: all but what the held jobs and the
    /// stopped printers may still add.
    pub fn gives_back(&self, config: &Config, freed: u64) -> u128
        ensures { result ≡ given_back (state_seen config.now self.now.state) freed }
    {
        given_back_of(config, &self.state, freed)
    }
}
