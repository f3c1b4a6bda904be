//! When the account is rotated or trimmed.

ghost use Rattle.std.specs.Int.NonZero.{non_zero_u64_get};
ghost use Rattle.std.specs.Prelude.{◌≡◌, ◌↔◌, IsTrue, length, option_map};
ghost use Rattle.server_house.specs.Rotating.{HasTurn};

use crate::hall::Hall;
use crate::house::House;
use crate::ledgers::HouseLedger;
use log::{Log, error, info};
use server_folders::ACCOUNT_LINES;
use server_notes::Rotation;
use shared_spool::{RotateError, Segment};
use std::num::NonZeroU64;
use std::rt::Clock;
use std::sync::Wait;
use std::thread;
use std::time::Duration;

/// The pause after a rotation that was refused, in seconds.
const PAUSE_SECONDS: u64 = 1;

/// Whether the account has its turn after `handed_on` connections: after each `every` of them, if
/// there is such a number.
pub fn has_turn(every: Option<NonZeroU64>, handed_on: u64) -> bool
    ensures { IsTrue result ↔ HasTurn (option_map non_zero_u64_get every) handed_on }
{
    every.is_some_and(|every| handed_on != 0 && handed_on % every.get() == 0)
}

/// What is printed of this segment.
pub fn rotation_of(segment: &Segment) -> Rotation
    ensures number { result.number ≡ segment.now.number }
    ensures entries { result.entries ≡ length segment.now.entries.items }
{
    Rotation {
        number: segment.number,
        entries: segment.entries.len() as u64,
    }
}

impl<R: Clock + Wait + Log> Hall<'_, R> {
    /// What comes of a rotation for which there was a place: the segment is printed of, and where the account is kept it waits
    /// to become a file. Where the account wasn't rotated the log is told why, and the server goes on.
    pub fn note_rotated(&self, rotated: Result<Segment, RotateError>) {
        match rotated {
            Ok(segment) => {
                self.rotations.add(self.rt, rotation_of(&segment));
                self.log_amid(&segment);
                self.shelve(segment);
            }
            Err(error) => {
                self.give_place_back();
                error!(self.rt; "fault {error}");
            }
        }
    }

    /// Where a segment began amid jobs the log is told so: the account was trimmed before it, since they are held for long.
    fn log_amid(&self, segment: &Segment) {
        if segment.since != 0 {
            let (number, since) = (segment.number, segment.since);
            info!(self.rt; target: ACCOUNT_LINES, "segment {number} of the account began amid held jobs, {since} entries behind the last rotation");
        }
    }
}

impl<R: Clock + Wait + Log, E: HouseLedger> House<'_, '_, R, E> {
    /// Rotates the account, or trims it where jobs are held, as soon as `least` entries are counted and no job is held, or a trim
    /// gives as many back; again and again until the spool is closed, and never where no room is kept.
    pub fn keep_account(&self) {
        let Some(least) = self.hall.least else {
            return;
        };
        for _ in self.hall.rt.forever() {
            if !self.hall.wait_for_place() {
                return;
            }
            let Some(segment) = self.spool.keep_wait(self.hall.rt, least) else {
                self.hall.give_place_back();
                return;
            };
            let is_refused = segment.is_err();
            self.hall.note_rotated(segment);
            if is_refused {
                thread::sleep(self.hall.rt, Duration::from_secs(PAUSE_SECONDS));
            } else {
                let _ = self.hall.waker.wake();
            }
        }
    }
}
