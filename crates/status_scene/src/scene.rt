//! What is shown.

use config_values::Config;
use server_counts::{Look, ServerCounts};
use spool_snapshot::Snapshot;
use status_lines::Outside;

/// What a server shows of itself at one moment.
#[derive(Clone, Copy)]
pub struct Scene<'a> {
    /// What its spool is made for.
    pub config: &'a Config,
    /// Its spool.
    pub spool: &'a Snapshot,
    /// What its edge alone knows.
    pub outside: &'a Outside<'a>,
    /// Of the held jobs in order of acceptance, for how many seconds each is held, where that is known.
    pub ages: &'a [Option<u64>],
    /// What the server counted since it began.
    pub counts: &'a ServerCounts,
    /// What was seen each minute over the last hour, oldest first.
    pub hour: &'a [Look],
}
