//! Folders that two printers would print to.

use log::{Log, info};
use program_edge::{PlacedPrinter, PrinterPlace};
use std::fs::Files;
use std::os::unix::fs::MetadataExt;
use std::{fmt, fs};

/// The part of the program that tells of such a folder, as the log names it: by which a log can choose its lines.
pub const SHARED_FOLDERS: &str = "printer_devices::sharing";

/// Which folder of the system a printer prints to: its device and its number there. None where it prints to no folder, or to one that
/// isn't there.
fn identity<R: Files>(rt: &R, place: PrinterPlace<'_>) -> Option<(u64, u64)> {
    let PrinterPlace::Folder(path) = place else {
        return None;
    };
    let metadata = fs::metadata(rt, path).ok()?;
    Some((metadata.dev(), metadata.ino()))
}

/// The printer among these that prints to the same folder as this one does, if there is one.
fn sharer<R: Files>(rt: &R, printers: &[PlacedPrinter], said: &PlacedPrinter) -> Option<u32> {
    let own = identity(rt, said.place)?;
    let one = printers
        .iter()
        .find(|one| identity(rt, one.place) == Some(own))?;
    Some(one.printer)
}

/// A folder that two printers would print to.
#[derive(Clone, Copy, Debug, PartialEq, Eq)]
pub struct SharedFolder<'a> {
    /// Its path, as it is said of the second of them.
    pub path: &'a str,
    /// The number of the first of them.
    pub first: u32,
    /// The number of the second.
    pub second: u32,
}

/// Why it can't be printed to by both.
impl fmt::Display for SharedFolder<'_> {
    fn fmt<W: fmt::Write>(&self, f: &mut fmt::Formatter<W>) -> fmt::Result {
        let SharedFolder { first, second, .. } = self;
        write!(
            f,
            "printer {first} prints to this folder, and a folder is one printer's: printer {second} needs another one"
        )
    }
}

/// The first folder that a printer has of one before it, by whatever path. The log is told which two these are.
///
/// A folder is one printer's: else nobody could tell which of its files is whose, and the account says of each job which file it is. It
/// is the one place where something is refused that earlier servers took, without an option that asks for it.
pub fn shared_folder<'a, R: Files + Log>(
    rt: &R,
    printers: &[PlacedPrinter<'a>],
) -> Option<SharedFolder<'a>> {
    for at in 0..printers.len() {
        let said = &printers[at];
        let (second, place) = (said.printer, said.place);
        if let (PrinterPlace::Folder(path), Some(first)) = (
            place,
            sharer(rt, &printers[..at], said),
        ) {
            let shared = SharedFolder {
                path,
                first,
                second,
            };
            info!(rt; target: SHARED_FOLDERS, "{path}: {shared}");
            return Some(shared);
        }
    }
    None
}
