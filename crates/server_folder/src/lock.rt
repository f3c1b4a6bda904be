//! The locks of a folder, by `flock`, as long as a server has it: on the folder itself, which lasts where somebody takes a file of it away, and
//! on the file `lock` in it, which is all that a server of an earlier version looks at. That the file exists says nothing.

use crate::fault::{FolderError, FolderUse};
use crate::making::FILE_MODE;
use std::alloc::{AllocError, Global};
use std::fs::{File, Files, OpenOptions, TryLockError};
use std::os::unix::fs::OpenOptionsExt;
use std::{fs, io};

/// Where the lock of the folder at this path stands.
fn path_in(alloc: Global, folder: &str) -> Result<String, AllocError> {
    format!(in alloc; "{folder}/lock")
}

/// What a lock that was tried says of a folder that a server has for this.
fn answer_of(tried: Result<(), TryLockError>, purpose: FolderUse) -> Result<(), FolderError> {
    match tried {
        Ok(()) => Ok(()),
        Err(TryLockError::WouldBlock) => Err(FolderError::InUse(purpose)),
        Err(TryLockError::Error(cause)) => Err(FolderError::Failed(cause)),
    }
}

/// An error where what stands at this path is no file: a pipe would have its opener wait. Whether something is there isn't said.
fn check_file<R: Files<File = File>>(rt: &R, path: &str) -> io::Result<()> {
    match fs::metadata(rt, path) {
        Ok(metadata) if !metadata.is_file() => {
            Err(io::Error::new(io::ErrorKind::Other, "its lock is no file"))
        }
        Ok(_) | Err(_) => Ok(()),
    }
}

/// What a server has of a folder, as long as this lasts.
#[derive(Drop)]
pub struct FolderHold {
    _folder: File,
    _lock: File,
}

/// What a lock of the folder itself says that was tried. Some file systems lock no folders: then it says nothing.
fn folder_answer(tried: Result<(), TryLockError>, purpose: FolderUse) -> Result<(), FolderError> {
    match tried {
        Err(TryLockError::WouldBlock) => Err(FolderError::InUse(purpose)),
        Ok(()) | Err(TryLockError::Error(_)) => Ok(()),
    }
}

/// Takes the locks of the folder.
pub(crate) fn take_locks<R: Files<File = File>>(
    rt: &R,
    alloc: Global,
    purpose: FolderUse,
    folder: &str,
) -> Result<FolderHold, FolderError> {
    let path = path_in(alloc, folder).map_err(io::Error::from)?;
    check_file(rt, path.as_str())?;
    let mut options = OpenOptions::new();
    options.write(true).create(true).mode(FILE_MODE);
    let lock = options.open(rt, path.as_str())?;
    answer_of(lock.try_lock(), purpose)?;
    let folder = File::open(rt, folder)?;
    folder_answer(folder.try_lock(), purpose)?;
    Ok(FolderHold {
        _folder: folder,
        _lock: lock,
    })
}

/// Whether no server has the folder. The locks are shared, and given back at once: none is made here.
pub(crate) fn check_locks<R: Files<File = File>>(
    rt: &R,
    alloc: Global,
    purpose: FolderUse,
    folder: &str,
) -> Result<(), FolderError> {
    let path = path_in(alloc, folder).map_err(io::Error::from)?;
    check_file(rt, path.as_str())?;
    folder_answer(File::open(rt, folder)?.try_lock_shared(), purpose)?;
    match OpenOptions::new().write(true).open(rt, path.as_str()) {
        Ok(file) => answer_of(file.try_lock_shared(), purpose),
        Err(cause) if cause.kind() == io::ErrorKind::NotFound => Ok(()),
        Err(cause) => Err(FolderError::Failed(cause)),
    }
}
