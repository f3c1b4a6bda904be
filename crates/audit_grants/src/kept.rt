//! How many pages a received job still holds.

ghost use Rattle.std.specs.Prelude.{◌≡◌, IfOk, IfSome, drop, length, map};
ghost use Rattle.std.specs.List.{flat_map};
ghost use Rattle.lpd_values.specs.Kept.{is_among};
ghost use Rattle.spool_history.specs.Acts as A;
ghost use Rattle.spool_history.specs.Now as N;
ghost use Rattle.history_reader.specs.Seen.{file_seen, job_seen};

use history_reader::{File, Job};
use lpd_values::FileName;
use std::alloc::{AllocError, Global};

/// Whether a name stands among these.
fn is_again(name: &FileName, names: &[FileName]) -> bool
    ensures { result ≡ is_among name.now names.now }
{
    names.iter().any(|other| other == name)
}

/// How many pages the files of a name have, where that fits 64 bits.
fn pages_named(name: &FileName, files: &[File]) -> Option<u64>
    ensures { IfSome result (λ n. n ≡ length (A.pages_named name.now 0 (map file_seen files.now))) }
{
    let Some((first, rest)) = files.split_first() else {
        return Some(0);
    };
    let others = pages_named(name, rest)?;
    if first.name != *name {
        return Some(others);
    }
    let all = others.checked_add(first.pages.len() as u64)?;
    Some(all)
}

/// How many pages of these files have one of the places that these names give, but for the first ones, so many, where that
/// fits 64 bits.
fn pages_left(names: &[FileName], files: &[File], back: u64) -> Option<u64>
    ensures { IfSome result (λ n. n ≡ length (A.pages_among
        (drop back (flat_map (λ name. A.pages_named name 0 (map file_seen files.now)) names.now))
        (A.all_pages 0 (map file_seen files.now)))) }
{
    let Some((first, rest)) = names.split_first() else {
        return Some(0);
    };
    let own = pages_named(first, files)?;
    if own <= back {
        return pages_left(rest, files, back - own);
    }
    let others = pages_left(rest, files, 0)?;
    if is_again(first, rest) {
        return Some(others);
    }
    let all = others.checked_add(own - back)?;
    Some(all)
}

/// How many pages of a job still have a place, where its control file is there and that fits 64 bits.
fn count_kept(job: &Job) -> Option<u64>
    ensures { IfSome result (λ n. n ≡ length (N.pages_kept (job_seen job.now))) }
{
    let control = job.control.as_ref()?;
    pages_left(control.prints.as_slice(), job.files.as_slice(), job.back)
}

/// How many pages of a job still have a place: they are counted, and no list of them is made but for numbers of pages that
/// no machine holds.
///
/// AllocError where memory is refused.
pub(crate) fn pages_kept(alloc: Global, job: &Job) -> Result<u128, AllocError>
    ensures { IfOk result (λ n. n ≡ length (N.pages_kept (job_seen job.now))) }
{
    if let Some(count) = count_kept(job) {
        return Ok(u128::from(count));
    }
    let kept = job.pages_kept(alloc)?;
    Ok(kept.len() as u128)
}
