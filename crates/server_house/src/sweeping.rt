//! The thread that removes the files of kept jobs that have ended, so that no printer waits for the disk.

use crate::hall::Hall;
use log::{Log, warn};
use std::fs::{File, Files};
use std::rt::Clock;
use std::sync::Wait;

/// The part of the program that logs what happens here, as the log names it.
const PART: &str = "lpd_daemon::sweeping";

impl<R: Files<File = File> + Clock + Log + Wait> Hall<'_, R> {
    /// Files of jobs that end wait to be removed from now on. Whether there is a folder that has some, so that somebody has to sweep it.
    pub fn begin_sweeping(&self) -> bool {
        if let Some(kept) = &self.kept {
            kept.disk.begin_sweeping();
        }
        self.kept.is_some()
    }

    /// Removes the files of jobs that have ended, one after another, until sweeping has ended and none is left.
    pub fn sweep_all(&self) {
        let Some(kept) = &self.kept else {
            return;
        };
        for _ in self.rt.forever() {
            match kept.disk.sweep() {
                Some(Ok(())) => {}
                Some(Err(fault)) => {
                    warn!(self.rt; target: PART, "{fault}: the file stays until the next start, and isn't printed then");
                }
                None => break,
            }
        }
    }

    /// Whoever sweeps ends once no file is left: no job ends any more.
    pub fn end_sweeping(&self) {
        if let Some(kept) = &self.kept {
            kept.disk.end_sweeping();
        }
    }
}
