//! What is said of what needs somebody.

ghost use Rattle.status_scene.specs.Words.{concern_words, failed_words, held_words, refused_words, stopped_words, unreached_words};

use crate::concern::Concern;
use std::fmt;

/// So many printers that aren't reached, of how many.
#[derive(Clone, Copy)]
struct UnreachedCount(usize, usize);

impl fmt::Display for UnreachedCount {
    ghost use Rattle.std.specs.Prelude.{Some};

    ghost output = { λ count. Some (unreached_words count.0 count.1) };

    fn fmt<W: fmt::Write>(&self, f: &mut fmt::Formatter<W>) -> fmt::Result {
        let (printers, of) = (self.0, self.1);
        match printers {
            1 => write!(f, "1 of {of} printers isn't reached"),
            _ => write!(f, "{printers} of {of} printers aren't reached"),
        }
    }
}

/// So many printers that are stopped, of how many.
#[derive(Clone, Copy)]
struct StoppedCount(usize, usize);

impl fmt::Display for StoppedCount {
    ghost use Rattle.std.specs.Prelude.{Some};

    ghost output = { λ count. Some (stopped_words count.0 count.1) };

    fn fmt<W: fmt::Write>(&self, f: &mut fmt::Formatter<W>) -> fmt::Result {
        let (printers, of) = (self.0, self.1);
        match printers {
            1 => write!(f, "1 of {of} printers is stopped"),
            _ => write!(f, "{printers} of {of} printers are stopped"),
        }
    }
}

/// So many kept jobs that have failed.
#[derive(Clone, Copy)]
struct FailedCount(u64);

impl fmt::Display for FailedCount {
    ghost use Rattle.std.specs.Prelude.{Some};

    ghost output = { λ count. Some (failed_words count.0) };

    fn fmt<W: fmt::Write>(&self, f: &mut fmt::Formatter<W>) -> fmt::Result {
        match self.0 {
            1 => f.write_str("1 kept job has failed"),
            jobs => write!(f, "{jobs} kept jobs have failed"),
        }
    }
}

/// So many queues that are held, of how many.
#[derive(Clone, Copy)]
struct HeldCount(usize, usize);

impl fmt::Display for HeldCount {
    ghost use Rattle.std.specs.Prelude.{Some};

    ghost output = { λ count. Some (held_words count.0 count.1) };

    fn fmt<W: fmt::Write>(&self, f: &mut fmt::Formatter<W>) -> fmt::Result {
        let (queues, of) = (self.0, self.1);
        match queues {
            1 => write!(f, "1 of {of} queues is held"),
            _ => write!(f, "{queues} of {of} queues are held"),
        }
    }
}

/// So many queues whose jobs are refused, of how many.
#[derive(Clone, Copy)]
struct RefusedCount(usize, usize);

impl fmt::Display for RefusedCount {
    ghost use Rattle.std.specs.Prelude.{Some};

    ghost output = { λ count. Some (refused_words count.0 count.1) };

    fn fmt<W: fmt::Write>(&self, f: &mut fmt::Formatter<W>) -> fmt::Result {
        let (queues, of) = (self.0, self.1);
        if queues == of {
            f.write_str("refuses jobs: the account is full")
        } else {
            write!(
                f,
                "refuses jobs of {queues} of {of} queues: the account is full"
            )
        }
    }
}

/// What needs somebody, in words, with the name of the queue that it is about.
#[derive(Clone, Copy)]
pub struct ConcernWords<'a> {
    /// What needs somebody.
    pub concern: Concern,
    /// The name of its queue, where it is about one.
    pub queue: &'a str,
}

impl fmt::Display for ConcernWords<'_> {
    ghost use Rattle.std.specs.Prelude.{Some};

    ghost output = { λ words. Some (concern_words words.concern words.queue.now) };

    fn fmt<W: fmt::Write>(&self, f: &mut fmt::Formatter<W>) -> fmt::Result {
        let queue = self.queue;
        match self.concern {
            Concern::TableFull { jobs } => {
                write!(f, "refuses jobs: {jobs} are held, as many as may be")
            }
            Concern::AccountFull { queues, of } => write!(f, "{}", RefusedCount(queues, of)),
            Concern::PoolFull { pages, of, .. } => {
                write!(
                    f,
                    "jobs wait: the pool is full of jobs for {queue}, {pages} of {of} pages"
                )
            }
            Concern::Unreached { printers, of } => write!(f, "{}", UnreachedCount(printers, of)),
            Concern::Stopped { printers, of } => write!(f, "{}", StoppedCount(printers, of)),
            Concern::Failed { jobs } => write!(f, "{}", FailedCount(jobs)),
            Concern::Held { queues, of } => write!(f, "{}", HeldCount(queues, of)),
        }
    }
}
