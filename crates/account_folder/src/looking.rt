//! Looking at a folder of segments without taking it.

use crate::listing::Listing;
use crate::opening::AccountOpenError;
use crate::reading::next_in;
use server_folder::FolderUse;
use std::alloc::Global;
use std::fs::{File, Files};
use std::io;

/// What stands at a path where a server is to write its account.
#[derive(Clone, Copy, Debug, PartialEq, Eq)]
pub enum AccountState {
    /// Nothing: a server would make the folder.
    Absent,
    /// A folder that a server would take.
    Present {
        /// How many segments are in it.
        segments: u64,
    },
}

/// What stands at this path. Nothing is made or changed. The last segment is read to its end.
///
/// # Errors
///
/// As a server would have them: `Broken` where the last segment isn't whole; `Full` where no number is left; and `Folder`, by
/// `InUse` where a server has the folder, and by `Failed` where the path is no folder, the folder, its lock or its last segment can't
/// be read, or nothing is there and neither is the folder above; or where memory is refused. Whether a folder that isn't there can be made isn't tried,
/// nor whether a file can be made in one that is.
pub fn look<R: Files<File = File>>(
    rt: &R,
    alloc: Global,
    path: &str,
) -> Result<AccountState, AccountOpenError> {
    let Some(octets) = server_folder::look(rt, alloc, FolderUse::Account, path)? else {
        return Ok(AccountState::Absent);
    };
    let listing = Listing::of(alloc, octets.as_slice()).map_err(io::Error::from)?;
    next_in(rt, alloc, path, &listing)?;
    let segments = listing.segments;
    Ok(AccountState::Present { segments })
}
