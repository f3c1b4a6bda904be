//! Looking at a folder without taking it.

use crate::fault::{FolderError, FolderUse};
use crate::listing::names;
use crate::lock::check_locks;
use std::alloc::Global;
use std::fs::{File, Files};
use std::io;

/// The folder in which the one at this path stands or would stand.
fn folder_above(path: &str) -> &str {
    match path.trim_end_matches('/').rsplit_once('/') {
        Some(("", _)) => "/",
        Some((above, _)) => above,
        None => ".",
    }
}

/// The names in the folder at this path, which a server has for this, as `names` has them; None where nothing is there and a server
/// would make the folder. Nothing is made or changed.
///
/// # Errors
///
/// As a server would have them: `InUse` where one has the folder, and `Failed` where the path is no folder, the folder can't
/// be read, its lock can't be opened, or nothing is there and neither is the folder above; or where memory is refused. Whether
/// a folder that isn't there can be made isn't tried, nor whether a file can be made in one that is.
pub fn look<R: Files<File = File>>(
    rt: &R,
    alloc: Global,
    purpose: FolderUse,
    path: &str,
) -> Result<Option<Vec<u8>>, FolderError> {
    match names(rt, alloc, path) {
        Ok(names) => {
            check_locks(rt, alloc, purpose, path)?;
            Ok(Some(names))
        }
        Err(cause) if cause.kind() == io::ErrorKind::NotFound => {
            rt.open_dir(folder_above(path))?;
            Ok(None)
        }
        Err(cause) => Err(FolderError::Failed(cause)),
    }
}
