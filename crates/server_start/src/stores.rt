//! What a server opens of files and folders.

ghost use Rattle.std.specs.Prelude.{◌≡◌, IfErr};
ghost use Rattle.program_edge.specs.Openings.{IsUnopened};
ghost use Rattle.program_edge.specs.declared.opening.StartPart.{StartPart};
ghost use Rattle.program_edge.specs.declared.opening.StartPart.TheVariants.{Spool};

use config_values::Config;
use log::{Log, warn};
use printer_devices::{OpenedPlace, open_places};
use program_edge::{Settings, StartFault};
use server_folders::{Archive, JobFolder, open_archive};
use server_house::{AccountRoom, Hall, Host, sessions_of};
use std::alloc::{AllocError, Global};
use std::fs::{File, Files};
use std::sync::Wait;

/// The part of the program that logs what happens here, as the log names it.
const PART: &str = "lpd_daemon::serving";

/// Opens the folder in which jobs are kept, if the settings name one. Where the account isn't rotated by itself that is logged: it
/// ends all the sooner.
///
/// Opening where it can't be used, or another server has it, of which the log is told why too; Memory.
fn open_kept<'a, R: Files<File = File> + Log + Wait>(
    rt: &'a R,
    alloc: Global,
    settings: &Settings<'a>,
    config: &Config,
) -> Result<Option<JobFolder<'a, R>>, StartFault>
    ensures { IfErr result (IsUnopened (λ (part : StartPart). part ≡ Spool)) }
{
    let Some(path) = settings.spool else {
        return Ok(None);
    };
    if !settings.keep_room && settings.rotate.is_none() {
        warn!(rt; target: PART, "{path}: jobs are kept, but the account is never rotated: without --keep-room or --rotate no job is taken once it is full");
    }
    let kept = JobFolder::open(rt, alloc, path, config)?;
    Ok(Some(kept))
}

/// What a server has opened of files and folders.
#[derive(Drop)]
pub struct Stores<'a, R> {
    /// What the printers print to, by their numbers, from 1.
    pub places: Vec<OpenedPlace>,
    /// Where jobs are kept until they are printed, if they are.
    pub kept: Option<JobFolder<'a, R>>,
    /// Where the account's segments become files, if they do.
    pub archive: Option<Archive<'a>>,
}

/// Opens what the settings name of files and folders. Opening with the first that can't be; Memory.
pub fn open_stores<'a, R: Host>(
    rt: &'a R,
    alloc: Global,
    settings: &Settings<'a>,
    config: &Config,
) -> Result<Box<Stores<'a, R>>, StartFault> {
    let places = open_places(rt, alloc, settings, config.printer_count())?;
    let kept = open_kept(rt, alloc, settings, config)?;
    let archive = open_archive(rt, alloc, settings, config, places.as_slice())?;
    let stores = Stores {
        places,
        kept,
        archive,
    };
    let boxed = Box::new(alloc, stores).map_err(AllocError::from)?;
    Ok(boxed)
}

impl<'a, R> Stores<'a, R> {
    /// Puts them into a hall, but for what the printers print to.
    pub fn put_into(self, hall: &mut Hall<'a, R>) -> Vec<OpenedPlace> {
        let Stores {
            places,
            kept,
            archive,
        } = self;
        hall.kept = kept;
        hall.archive = archive;
        places
    }
}

/// A hall knows of the room that is kept in the account, where it is.
pub fn keep_room<R>(
    hall: &mut Hall<'_, R>,
    settings: &Settings<'_>,
    config: &Config,
) -> Option<AccountRoom> {
    if !settings.keep_room {
        return None;
    }
    let room = AccountRoom::new(config, sessions_of(settings), settings.limits.room_ms);
    hall.least = Some(room.least);
    Some(room)
}
