//! Which queues are held, in a file of the folder that keeps jobs, a queue's name a line: so a hold outlives the server.
//!
//! The file is written anew under another name, synced, and renamed, and the folder is synced, before a hold or a release is answered. A
//! server that doesn't know it passes it over.

use config_values::Config;
use job_disk::{HELD_QUEUES, read_held};
use log::{Log, warn};
use server_folder::FILE_MODE;
use std::alloc::{AllocError, Global};
use std::fs::{File, Files, OpenOptions};
use std::io::{ErrorKind, Write};
use std::os::unix::fs::OpenOptionsExt;
use std::{fs, io};

/// Which queues are held, by their places, as the lines of a file say. The log is told of each name that the configuration lacks.
fn held_in<R: Log>(
    rt: &R,
    alloc: Global,
    path: &str,
    config: &Config,
    text: &[u8],
) -> Result<Vec<bool>, AllocError> {
    let mut held = all_queues(alloc, config, false)?;
    for name in text.split(|octet| *octet == b'\n') {
        if name.is_empty() {
            continue;
        }
        let Some(number) = config.queue_named(name) else {
            warn!(rt; "{path}/{HELD_QUEUES}: a queue that was held isn't in the configuration any more");
            continue;
        };
        if let Some(place) = held.get_mut((number as usize).saturating_sub(1)) {
            *place = true;
        }
    }
    Ok(held)
}

/// All queues, each held or not.
fn all_queues(alloc: Global, config: &Config, are_held: bool) -> Result<Vec<bool>, AllocError> {
    let mut held = Vec::with_capacity(alloc, config.queues().len())?;
    for _queue in config.queues() {
        held.push(are_held)?;
    }
    Ok(held)
}

/// Which queues the folder at a path says are held, by their places. All, and the log is told, where its file can't be read; none where there
/// is no file. AllocError where memory is refused.
pub(crate) fn read_holds<R: Files<File = File> + Log>(
    rt: &R,
    alloc: Global,
    path: &str,
    config: &Config,
) -> Result<Vec<bool>, AllocError> {
    match read_held(rt, alloc, path) {
        Ok(text) => held_in(rt, alloc, path, config, text.as_slice()),
        Err(error) if error.kind() == ErrorKind::NotFound => all_queues(alloc, config, false),
        Err(error) => {
            warn!(rt; "{path}/{HELD_QUEUES}: {error}: all queues are held, since it isn't known which ones are");
            all_queues(alloc, config, true)
        }
    }
}

/// Has the folder at a path say which queues are held, by their places. An error where that can't be written or synced, or memory is refused.
pub(crate) fn write_holds<R: Files<File = File>>(
    rt: &R,
    alloc: Global,
    path: &str,
    config: &Config,
    held: &[bool],
) -> io::Result<()> {
    let mut text = Vec::new(alloc);
    for (queue, is_held) in config.queues().iter().zip(held) {
        if *is_held {
            text.extend_from_slice(queue.name())?;
            text.push(b'\n')?;
        }
    }
    let whole = format!(in alloc; "{path}/{HELD_QUEUES}")?;
    let temporary = format!(in alloc; "{path}/{HELD_QUEUES}.tmp")?;
    let mut options = OpenOptions::new();
    options
        .write(true)
        .create(true)
        .truncate(true)
        .mode(FILE_MODE);
    let mut file = options.open(rt, temporary.as_str())?;
    file.write_all(text.as_slice())?;
    file.sync_all()?;
    fs::rename(rt, temporary.as_str(), whole.as_str())?;
    File::open(rt, path)?.sync_all()
}
