//! Which files a folder has.

use job_files::KeptFileName;
use std::alloc::{AllocError, Global};
use std::fs::Files;
use std::io;

/// The names of files among these names, each of which ends at an octet 00, that are named as jobs' files are. Any other name is passed over.
fn named_so(alloc: Global, octets: &[u8]) -> Result<Vec<KeptFileName>, AllocError> {
    let mut names = Vec::new(alloc);
    for octets in octets.split(|octet| *octet == 0) {
        if let Some(name) = KeptFileName::parse(octets) {
            names.push(name)?;
        }
    }
    Ok(names)
}

/// Those of these that jobs' files have, or those whose number is too great for that, and which are no jobs.
fn chosen(
    alloc: Global,
    names: &[KeptFileName],
    jobs: bool,
) -> Result<Vec<KeptFileName>, AllocError> {
    let mut chosen = Vec::new(alloc);
    for name in names {
        if name.is_jobs() == jobs {
            chosen.push(*name)?;
        }
    }
    Ok(chosen)
}

/// The names of jobs' files among these names, each of which ends at an octet 00. Any other name is passed over.
pub(crate) fn names_of(alloc: Global, octets: &[u8]) -> Result<Vec<KeptFileName>, AllocError> {
    chosen(alloc, named_so(alloc, octets)?.as_slice(), true)
}

/// The names in the folder at this path, in any order, that are as those of jobs' files but for their numbers, which are too great. An error
/// where it can't be read, or memory is refused.
pub(crate) fn names_beyond<R: Files>(
    rt: &R,
    alloc: Global,
    path: &str,
) -> io::Result<Vec<KeptFileName>> {
    let octets = server_folder::names(rt, alloc, path)?;
    Ok(chosen(alloc, named_so(alloc, octets.as_slice())?.as_slice(), false)?)
}

/// The names of the jobs' files in the folder at this path, in any order. An error where it can't be read, or memory is refused.
pub(crate) fn names_in<R: Files>(
    rt: &R,
    alloc: Global,
    path: &str,
) -> io::Result<Vec<KeptFileName>> {
    let octets = server_folder::names(rt, alloc, path)?;
    Ok(names_of(alloc, octets.as_slice())?)
}
