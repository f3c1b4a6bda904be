//! Looking at a folder of jobs without taking it.

use crate::disk::NO_FILE;
use crate::listing::names_of;
use job_files::{FileStage, KeptFileName};
use server_folder::{FolderError, FolderUse};
use std::alloc::Global;
use std::fs::{File, Files};
use std::io::Read;
use std::{fs, io};

/// The file of a folder of jobs that has the names of the queues that are held, one a line.
pub const HELD_QUEUES: &str = "held";

/// What stands at a path where a server is to keep jobs.
#[derive(Clone, Copy, Debug, PartialEq, Eq)]
pub enum FolderState {
    /// Nothing: a server would make the folder.
    Absent,
    /// A folder that a server would take.
    Present {
        /// How many whole jobs wait in it.
        waiting: usize,
        /// How many jobs in it have failed.
        failed: usize,
    },
}

/// What the file of the folder at this path says that has the names of the queues that are held.
///
/// An error where it isn't there (NotFound), is no file, or can't be read; or memory is refused.
pub fn read_held<R: Files<File = File>>(rt: &R, alloc: Global, path: &str) -> io::Result<Vec<u8>> {
    let file = format!(in alloc; "{path}/{HELD_QUEUES}")?;
    if !fs::metadata(rt, file.as_str())?.is_file() {
        return Err(io::Error::new(io::ErrorKind::Other, NO_FILE));
    }
    let mut text = Vec::new(alloc);
    File::open(rt, file.as_str())?.read_to_end(&mut text)?;
    Ok(text)
}

/// How many of these files are at a stage.
fn count_at(names: &[KeptFileName], stage: FileStage) -> usize {
    names.iter().filter(|name| name.stage == stage).count()
}

/// What stands at this path. Nothing is made or changed.
///
/// # Errors
///
/// As a server would have them: `InUse` where one has the folder, and `Failed` where the path is no folder, the folder can't
/// be read, its lock can't be opened, or nothing is there and neither is the folder above; or where memory is refused. Whether
/// a folder that isn't there can be made isn't tried, nor whether a file can be made in one that is.
pub fn look<R: Files<File = File>>(
    rt: &R,
    alloc: Global,
    path: &str,
) -> Result<FolderState, FolderError> {
    let Some(octets) = server_folder::look(rt, alloc, FolderUse::Jobs, path)? else {
        return Ok(FolderState::Absent);
    };
    let names = names_of(alloc, octets.as_slice()).map_err(io::Error::from)?;
    Ok(FolderState::Present {
        waiting: count_at(names.as_slice(), FileStage::Whole),
        failed: count_at(names.as_slice(), FileStage::Failed),
    })
}
