//! The thread that writes the account's segments into files, and who waits for it.

ghost use Rattle.std.specs.Prelude.{◌≡◌, false, true};

use crate::hall::Hall;
use log::Log;
use server_folders::LAST_TRIES;
use shared_spool::Segment;
use std::fs::{File, Files};
use std::rt::Clock;
use std::sync::Wait;

/// How often each of the last segments is tried, by whether nothing is waited for any more.
fn tries_of(cuts_off: bool) -> u32
    ensures cut_off { cuts_off ≡ true → result ≡ 1 }
    ensures other { cuts_off ≡ false → result ≡ 3 }
{
    if cuts_off { 1 } else { LAST_TRIES }
}

impl<R: Clock + Log + Wait> Hall<'_, R> {
    /// Whether the account may be rotated: where its segments become files a place is taken then for one that waits.
    pub fn takes_place(&self) -> bool {
        match &self.archive {
            Some(archive) => archive.promise(self.rt),
            None => true,
        }
    }

    /// The same, as soon as there is a place. False once the spool is closed.
    pub fn wait_for_place(&self) -> bool {
        match &self.archive {
            Some(archive) => archive.promise_wait(self.rt),
            None => true,
        }
    }

    /// The account wasn't rotated: the place is given back.
    pub fn give_place_back(&self) {
        if let Some(archive) = &self.archive {
            archive.give_back(self.rt);
        }
    }

    /// The segment takes its place, and waits to become a file.
    pub fn shelve(&self, segment: Segment) {
        if let Some(archive) = &self.archive {
            archive.add(self.rt, segment);
            archive.give_back(self.rt);
        }
    }

    /// Nobody waits for a place any more: the spool is closed.
    pub fn close_shelf(&self) {
        if let Some(archive) = &self.archive {
            archive.close(self.rt);
        }
    }

    /// The archivist ends: nobody rotates the account any more.
    pub fn end_archiving(&self) {
        if let Some(archive) = &self.archive {
            archive.finish(self.rt, tries_of(self.ending.cuts_off()));
        }
    }
}

impl<R: Files<File = File> + Clock + Log + Wait> Hall<'_, R> {
    /// Has the account's segments become files, one after another, until the server ends.
    pub fn archive_all(&self) {
        if let Some(archive) = &self.archive {
            archive.write_all(self.rt);
        }
    }
}
