//! How many jobs the folder has. Files come and go by other hands too, so while somebody asks it is read again from time to time.

ghost use Rattle.std.specs.Prelude.{◌≡◌, ◌+◌, ◌/◌, min};

use crate::kept::JobFolder;
use log::{Log, warn};
use status_lines::KeptJobs;
use std::fs::{File, Files};
use std::rt::Clock;
use std::sync::Wait;
use std::time::{Duration, Instant};

/// How many files lengthen the time between two looks by a second.
const FILES_OF_A_SECOND: u64 = 5_000;

/// The longest time between two looks, in seconds.
const LONGEST_SECONDS: u64 = 10;

/// A look at the folder.
#[derive(Clone, Copy)]
pub(crate) struct Recounted {
    /// When it began.
    at: Instant,
    /// For how many seconds it serves.
    seconds: u64,
}

/// For how many seconds a look serves at a folder of this many files: reading many takes long.
fn seconds_behind(files: u64) -> u64
    ensures { result ≡ min (1 + files / 5000) 10 }
{
    let more = files / FILES_OF_A_SECOND;
    more.saturating_add(1).min(LONGEST_SECONDS)
}

impl<R: Files<File = File> + Clock + Log + Wait> JobFolder<'_, R> {
    /// Whether the folder is to be read again now. Who is told so reads it, and nobody else meanwhile.
    fn take_due(&self, rt: &R) -> bool {
        let Ok(now) = Instant::now(rt) else {
            return false;
        };
        let mut state = self.state.lock(rt);
        if let Some(last) = state.recounted {
            if now.saturating_duration_since(last.at) < Duration::from_secs(last.seconds) {
                return false;
            }
        }
        state.recounted = Some(Recounted {
            at: now,
            seconds: LONGEST_SECONDS,
        });
        true
    }

    /// Reads the folder again, so that what somebody took away or put there is counted as it is. The log is told of jobs that waited and
    /// whose files are gone. Nothing changes where it can't be read.
    fn recount(&self, rt: &R) {
        let Ok(recount) = self.disk.recount() else {
            return;
        };
        if let Some(last) = &mut self.state.lock(rt).recounted {
            last.seconds = seconds_behind(recount.files as u64);
        }
        if recount.gone > 0 {
            let (path, gone) = (self.path, recount.gone);
            warn!(rt; "{path}: the files of {gone} jobs that waited are gone: these jobs aren't printed");
            self.ring(rt);
        }
    }

    /// How many jobs wait in the folder to be fed, and how many in it have failed: as it was some seconds ago at most, ten where it has
    /// many files.
    pub fn counts(&self, rt: &R) -> KeptJobs {
        if self.take_due(rt) {
            self.recount(rt);
        }
        KeptJobs {
            waiting: self.disk.waiting().saturating_add(self.unread(rt)) as u64,
            failed: self.disk.failed() as u64,
        }
    }

    /// How many whole jobs are in the folder, also those that the spool has: what a server leaves to the next one.
    pub fn left(&self, rt: &R) -> u64 {
        self.recount(rt);
        self.disk.left().saturating_add(self.unread(rt)) as u64
    }
}
