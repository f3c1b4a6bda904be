//! Where the account's segments become files, and those that wait for it.

ghost use Rattle.std.specs.Prelude.{◌≡◌, ◌*◌, IfErr, min};
ghost use Rattle.program_edge.specs.Openings.{IsUnopened};
ghost use Rattle.program_edge.specs.declared.opening.StartPart.{StartPart};
ghost use Rattle.program_edge.specs.declared.opening.StartPart.TheVariants.{Account};

use crate::refusal::refused;
use crate::told_places::told_places;
use account::Segment;
use account_folder::{AccountFolder, WriteFault};
use config_values::Config;
use log::{Log, error, info, warn};
use printer_devices::OpenedPlace;
use program_edge::{Settings, StartFault, StartPart};
use std::alloc::{AllocError, Global};
use std::fs::{File, Files};
use std::rt::Clock;
use std::sync::{Condvar, Mutex, Wait};
use std::thread;
use std::time::{Duration, Instant, SystemTime, UNIX_EPOCH};

/// The part of the program that logs each segment that became a file, as the log names it.
pub const ACCOUNT_LINES: &str = "lpd_daemon::archiving";

/// How many segments may wait, beside the one that is being written. While this many do, the account isn't rotated.
const MOST_WAITING: usize = 2;

/// The first pause after a try that failed, in seconds. Each further one is twice as long as the one before.
const FIRST_PAUSE_SECONDS: u64 = 1;

/// The longest pause, in seconds: also the time between two warnings.
const LONGEST_PAUSE_SECONDS: u64 = 60;

/// How often what is left is tried at a server's end.
pub const LAST_TRIES: u32 = 3;

/// The pause after one that is as long as this, in seconds.
fn next_pause(seconds: u64) -> u64
    ensures { result ≡ min (2 * seconds) 60 }
{
    seconds.saturating_mul(2).min(LONGEST_PAUSE_SECONDS)
}

/// A segment that waits.
#[derive(Drop)]
struct Shelved {
    segment: Segment,
    /// When the account was rotated.
    closed: SystemTime,
}

/// The segments that wait.
#[derive(Drop)]
struct Shelf {
    waiting: Vec<Shelved>,
    /// How many places are taken for segments that aren't there yet.
    promised: usize,
    /// The number of the segment that is written next.
    next: u64,
    /// No place is waited for any more.
    is_closed: bool,
    /// Nothing is waited for any more, and what is left is tried this often.
    last_tries: Option<u32>,
}

impl Shelf {
    /// Takes a place, where there is one.
    fn promise(&mut self) -> bool {
        if self.waiting.len().saturating_add(self.promised) >= MOST_WAITING {
            return false;
        }
        self.promised = self.promised.saturating_add(1);
        true
    }

    /// Takes out the segment that is written next, where it is there: they may come in another order than that of their numbers.
    fn take(&mut self) -> Option<Shelved> {
        let next = self.next;
        let mut waiting = self.waiting.iter();
        let at = waiting.position(|shelved| shelved.segment.number == next)?;
        self.next = next.saturating_add(1);
        Some(self.waiting.remove(at))
    }
}

/// Where the account's segments become files.
#[derive(Drop)]
pub struct Archive<'a> {
    path: &'a str,
    // Held by who writes, and so for long: by the archivist, and once it has ended by who ends the server.
    folder: Mutex<AccountFolder>,
    shelf: Mutex<Shelf>,
    changed: Condvar,
}

/// The time of day. 1970 where the clock can't be read.
fn time_of<R: Clock>(rt: &R) -> SystemTime {
    SystemTime::now(rt).unwrap_or(UNIX_EPOCH)
}

/// Opens the folder in which the account's segments become files, if the settings name one. Where the account is never rotated
/// while the server runs, that is logged: then there is one file, at the end.
///
/// Opening where it can't be used, or another server has it, of which the log is told why too; Memory.
pub fn open_archive<'a, R: Files<File = File> + Clock + Log>(
    rt: &R,
    alloc: Global,
    settings: &Settings<'a>,
    config: &Config,
    places: &[OpenedPlace],
) -> Result<Option<Archive<'a>>, StartFault>
    ensures { IfErr result (IsUnopened (λ (part : StartPart). part ≡ Account)) }
{
    let Some(path) = settings.account else {
        return Ok(None);
    };
    if !settings.keep_room && settings.rotate.is_none() {
        warn!(rt; "{path}: the account is kept, but never rotated: without --keep-room or --rotate it is written at the end alone, and no job is taken once it is full");
    }
    let (config, printers) = (
        Config::copy_of(alloc, config)?,
        told_places(alloc, settings, places)?,
    );
    let waiting = Vec::with_capacity(alloc, MOST_WAITING + 2)?;
    let folder = match AccountFolder::open(rt, alloc, path, config, printers, time_of(rt)) {
        Ok(folder) => folder,
        Err(error) => return Err(refused(rt, alloc, StartPart::Account, path, &error)),
    };
    let shelf = Shelf {
        waiting,
        promised: 0,
        next: 1,
        is_closed: false,
        last_tries: None,
    };
    Ok(Some(Archive {
        path,
        folder: Mutex::new(folder),
        shelf: Mutex::new(shelf),
        changed: Condvar::new(),
    }))
}

impl Archive<'_> {
    /// Takes a place for a segment. False where all are taken.
    pub fn promise<R: Wait>(&self, rt: &R) -> bool {
        self.shelf.lock(rt).promise()
    }

    /// Takes a place for a segment as soon as there is one. False once no place is waited for any more.
    pub fn promise_wait<R: Wait>(&self, rt: &R) -> bool {
        let mut shelf = self.shelf.lock(rt);
        for _ in rt.forever() {
            if shelf.is_closed {
                return false;
            }
            if shelf.promise() {
                return true;
            }
            shelf = self.changed.wait(rt, shelf);
        }
        false
    }

    /// Gives a place back.
    pub fn give_back<R: Wait>(&self, rt: &R) {
        let mut shelf = self.shelf.lock(rt);
        shelf.promised = shelf.promised.saturating_sub(1);
        self.changed.notify_all();
    }

    /// A segment waits from now on.
    pub fn add<R: Clock + Log + Wait>(&self, rt: &R, segment: Segment) {
        let closed = time_of(rt);
        let (number, entries) = (segment.number, segment.entries.len());
        if self
            .shelf
            .lock(rt)
            .waiting
            .push(Shelved { segment, closed })
            .is_err()
        {
            error!(rt; "memory was refused: segment {number} isn't written, and its {entries} entries are gone");
        }
        self.changed.notify_all();
    }

    /// Nobody waits for a place any more.
    pub fn close<R: Wait>(&self, rt: &R) {
        self.shelf.lock(rt).is_closed = true;
        self.changed.notify_all();
    }

    /// Nothing is waited for any more. What is left is tried this often at the end.
    pub fn finish<R: Wait>(&self, rt: &R, tries: u32) {
        self.shelf.lock(rt).last_tries = Some(tries);
        self.changed.notify_all();
    }

    /// The segment that is written next, which is waited for. None once nothing is waited for any more.
    fn next<R: Wait>(&self, rt: &R) -> Option<Shelved> {
        let mut shelf = self.shelf.lock(rt);
        for _ in rt.forever() {
            if shelf.last_tries.is_some() {
                return None;
            }
            if let Some(shelved) = shelf.take() {
                self.changed.notify_all();
                return Some(shelved);
            }
            shelf = self.changed.wait(rt, shelf);
        }
        None
    }

    /// Waits for N seconds. False once nothing is waited for any more.
    fn pause<R: Clock + Wait>(&self, rt: &R, seconds: u64) -> bool {
        let limit = Duration::from_secs(seconds);
        let shelf = self.shelf.lock(rt);
        let (shelf, _) = self
            .changed
            .wait_timeout_while(rt, shelf, limit, |shelf| shelf.last_tries.is_none());
        shelf.last_tries.is_none()
    }
}

impl Archive<'_> {
    /// Tries once to make the segment in hand a file, and has the log told of that.
    fn try_once<R: Files<File = File> + Log + Wait>(&self, rt: &R) -> Result<(), WriteFault> {
        let put_away = self.folder.lock(rt).put_away(rt)?;
        if let Some(put_away) = put_away {
            let path = self.path;
            info!(rt; target: ACCOUNT_LINES, "account {path}/{put_away}");
        }
        Ok(())
    }

    /// Makes the segment in hand a file, again and again until that is done. Where it fails that is logged, once a minute at most.
    /// False where nothing is waited for any more: the segment is still in hand then.
    fn write<R: Files<File = File> + Clock + Log + Wait>(&self, rt: &R) -> bool {
        let mut pause = FIRST_PAUSE_SECONDS;
        let mut told: Option<Instant> = None;
        for _ in rt.forever() {
            let Err(fault) = self.try_once(rt) else {
                return true;
            };
            let now = Instant::now(rt).ok();
            if is_due(told, now) {
                let path = self.path;
                warn!(rt; "account {path}: {fault}: the segment is kept, and is tried again");
                told = now;
            }
            if !self.pause(rt, pause) {
                break;
            }
            pause = next_pause(pause);
        }
        false
    }

    /// Has segments become files, until nothing is waited for any more.
    pub fn write_all<R: Files<File = File> + Clock + Log + Wait>(&self, rt: &R) {
        for _ in rt.forever() {
            let Some(Shelved { segment, closed }) = self.next(rt) else {
                break;
            };
            self.folder.lock(rt).take(segment, closed);
            if !self.write(rt) {
                break;
            }
        }
    }

    /// Tries this often to make the segment in hand a file.
    fn try_often<R: Files<File = File> + Clock + Log + Wait>(
        &self,
        rt: &R,
        tries: u32,
    ) -> Result<(), WriteFault> {
        let mut pause = FIRST_PAUSE_SECONDS;
        for _ in 1..tries {
            if self.try_once(rt).is_ok() {
                return Ok(());
            }
            thread::sleep(rt, Duration::from_secs(pause));
            pause = next_pause(pause);
        }
        self.try_once(rt)
    }

    /// Has all that is left become files, in order: what is in hand, what waits, and the last segment, if there is one. What
    /// doesn't is gone, and the log is told of it.
    ///
    /// It is called once the archivist has ended.
    pub fn end<R: Files<File = File> + Clock + Log + Wait>(&self, rt: &R, last: Option<Segment>) {
        let tries = self.shelf.lock(rt).last_tries.unwrap_or(LAST_TRIES);
        if let Some(segment) = last {
            self.add(rt, segment);
        }
        let mut ended = self.try_often(rt, tries);
        for _ in 0..u64::MAX {
            if let Err(fault) = &ended {
                let path = self.path;
                error!(rt; "account {path}: {fault}: the segment isn't written, and its entries are gone");
                break;
            }
            let Some(Shelved { segment, closed }) = self.shelf.lock(rt).take() else {
                break;
            };
            self.folder.lock(rt).take(segment, closed);
            ended = self.try_often(rt, tries);
        }
        self.tell_gone(rt);
    }

    /// Tells which segments aren't written since one before them isn't.
    fn tell_gone<R: Log + Wait>(&self, rt: &R) {
        let path = self.path;
        for _ in 0..u64::MAX {
            let Some(Shelved { segment, .. }) = self.shelf.lock(rt).take() else {
                break;
            };
            let (number, entries) = (segment.number, segment.entries.len());
            error!(rt; "account {path}: segment {number} of this run isn't written, since the one before it isn't: its {entries} entries are gone");
        }
    }
}

/// Whether a warning is due at this moment, where the one before was given at that one.
fn is_due(told: Option<Instant>, now: Option<Instant>) -> bool {
    match (told, now) {
        (Some(told), Some(now)) => {
            now.saturating_duration_since(told) >= Duration::from_secs(LONGEST_PAUSE_SECONDS)
        }
        _ => true,
    }
}
