//! Taking a folder for one server.

use crate::fault::{FolderError, FolderUse};
use crate::lock::{FolderHold, take_locks};
use std::alloc::Global;
use std::fs::{File, Files};
use std::io;

/// Who may enter the folder, where it is made: its owner.
const FOLDER_MODE: u32 = 0o700;

/// Who may read and write its files: their owner.
pub const FILE_MODE: u32 = 0o600;

/// Makes the folder where nothing is at this path, and has its name on the disk.
fn make<R: Files<File = File>>(rt: &R, alloc: Global, path: &str) -> io::Result<()> {
    // Of who may enter a folder that is made std tells the runtime of the program alone.
    if os::mkdir_with(path.as_bytes(), FOLDER_MODE) < 0 {
        let error = io::Error::from_raw_os_error(os::errno());
        return match error.kind() {
            io::ErrorKind::AlreadyExists => Ok(()),
            _ => Err(error),
        };
    }
    let above = format!(in alloc; "{path}/..")?;
    File::open(rt, above.as_str())?.sync_all()
}

/// Takes the folder at this path for this, which is made where nothing is there: this server has it as long as what is answered lasts.
///
/// # Errors
///
/// `InUse` where another server has it; `Failed` where it can't be made, or its lock can't be opened, or it can't be read, or memory is refused.
pub fn take<R: Files<File = File>>(
    rt: &R,
    alloc: Global,
    purpose: FolderUse,
    path: &str,
) -> Result<FolderHold, FolderError> {
    make(rt, alloc, path)?;
    take_locks(rt, alloc, purpose, path)
}
