//! Which names a folder has.

use std::alloc::Global;
use std::fs::Files;
use std::io;
use std::io::Read;

/// How many octets of names are read at once.
const PIECE_OCTETS: usize = 8_192;

/// The names in the folder at this path, in any order, each ended by an octet 00. `io::Error` where it can't be read, or memory is
/// refused.
pub fn names<R: Files>(rt: &R, alloc: Global, path: &str) -> io::Result<Vec<u8>> {
    let mut names = Vec::new(alloc);
    let mut folder = rt.open_dir(path)?;
    let mut buffer = [0u8; PIECE_OCTETS];
    for _ in 0..u64::MAX {
        let count = folder.read(&mut buffer)?;
        if count == 0 {
            break;
        }
        names.extend_from_slice(&buffer[..count])?;
    }
    Ok(names)
}
