//! The job that a session asks for, as the log names it where it is refused.

use config_values::Config;
use control_lines::Escaped;
use lpd_values::Octets;
use std::alloc::{AllocError, Global};
use std::fmt;

/// A job that a session asks for, as far as that has come.
#[derive(Drop)]
pub struct AskedJob {
    /// The name of its queue, also where there is no such queue.
    queue: Octets,
    /// How many octets a job of that queue may have, where there is one: its pages, all of them full.
    limit: Option<u64>,
    /// How many octets the data files have together that were asked for so far.
    octets: u64,
    /// Whose it is, once its control file has come.
    user: Option<Octets>,
}

impl AskedJob {
    /// One for the queue of this name, of which nothing else has come. AllocError where memory for it is refused.
    pub fn new(alloc: Global, config: &Config, queue: &[u8]) -> Result<AskedJob, AllocError> {
        let page_size = u64::from(config.page_size());
        let named = config.queues().iter().find(|found| found.name() == queue);
        let limit = match named {
            Some(found) => Some(page_size.saturating_mul(u64::from(found.limit()))),
            None => None,
        };
        Ok(AskedJob {
            queue: Octets::copy_of(alloc, queue)?,
            limit,
            octets: 0,
            user: None,
        })
    }

    /// One more data file of it has so many octets.
    pub fn add_file(&mut self, octets: u64) {
        self.octets = self.octets.saturating_add(octets);
    }

    /// It is this user's.
    pub fn name_user(&mut self, alloc: Global, user: &[u8]) {
        self.user = Octets::copy_of(alloc, user).ok();
    }
}

impl fmt::Display for AskedJob {
    fn fmt<W: fmt::Write>(&self, f: &mut fmt::Formatter<W>) -> fmt::Result {
        write!(f, "queue {}", Escaped(self.queue.as_slice()))?;
        match (self.octets, self.limit) {
            (0, _) => {}
            (octets, Some(limit)) => write!(f, ", {octets} octets of {limit}")?,
            (octets, None) => write!(f, ", {octets} octets")?,
        }
        match &self.user {
            Some(user) => write!(f, ", user {}", Escaped(user.as_slice())),
            None => Ok(()),
        }
    }
}
