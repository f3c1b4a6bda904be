//! How an answer at the control socket names a job.

ghost use Rattle.std.specs.Prelude.{Some};
ghost use Rattle.server_jobs.specs.OwnedJobs.{owned_words};

use control_lines::Escaped;
use standings::JobName;
use std::fmt;

/// A job as an answer names it, with whose it is: `job 5 (002) ann@hosta of prn08`, or `file 7 (002) ann@hosta of prn08`.
#[derive(Clone, Copy)]
pub struct OwnedJob<'a> {
    pub name: JobName,
    pub user: &'a [u8],
    pub host: &'a [u8],
    /// The name of its queue.
    pub queue: &'a [u8],
}

impl fmt::Display for OwnedJob<'_> {
    ghost output = { λ job. Some (owned_words job) };

    fn fmt<W: fmt::Write>(&self, f: &mut fmt::Formatter<W>) -> fmt::Result {
        let (user, host) = (Escaped(self.user), Escaped(self.host));
        write!(f, "{} {user}@{host} of {}", self.name, Escaped(self.queue))
    }
}
