//! Directories of printers' files, each of one test's own.

use std::alloc::Global;
use std::fs;
use std::fs::Files;

/// Makes the directory anew, with nothing in it. None where it can't be made.
pub fn make<R: AllocGlobal + Files>(rt: &R, directory: &str) -> Option<()> {
    // What a run that failed may have left.
    let _ = fs::remove_dir_all(rt, directory);
    fs::create_dir(rt, directory).ok()
}

/// Removes the directory. None where it can't be removed.
pub fn remove<R: AllocGlobal + Files>(rt: &R, directory: &str) -> Option<()> {
    fs::remove_dir_all(rt, directory).ok()
}

/// The path of a printer's file. None where memory is refused.
pub fn path(alloc: Global, directory: &str, printer: u32) -> Option<String> {
    format!(in alloc; "{directory}/printer-{printer}").ok()
}

/// What a printer's file has. None where it can't be read.
pub fn printed<R: AllocGlobal + Files>(rt: &R, directory: &str, printer: u32) -> Option<Vec<u8>> {
    let path = path(rt.alloc(), directory, printer)?;
    fs::read(rt, path.as_str()).ok()
}
