//! Whether the pages that were handed of the jobs of each sender in each queue are joined job by job.

ghost use Rattle.std.specs.Prelude.{◌≡◌, ◌==◌, ◌+◌, ◌<◌, ◌^◌, ◌++◌, ◌↔◌, IfOk, IsTrue, OnOk, filter, length, map, take};
ghost use Rattle.std.specs.List.{AllByRecursion, flat_map, list_any};
ghost use Rattle.spool_history.specs.Said as D;
ghost use Rattle.spool_history.specs.Joined as J;
ghost use Rattle.account.specs.Seen.{history, sheet_seen};
ghost use Rattle.history_reader.specs.Seen.{opening_seen, page_seen};
ghost use Rattle.history_legality.specs.Joins.{LineIsJoin, MayLeave, is_held_before, of_line};

use crate::queues::rises;
use crate::turning::is_same_sheet;
use account::{Entry, Progress, Sheet, Turn};
use history_reader::{Opening, Page, job_in, openings};
use std::alloc::{AllocError, Global};

/// Whether the last place of a job was printed.
fn is_done(entries: &[Entry], job: u64) -> bool
    ensures { result ≡ D.is_done (history entries.now) job }
{
    let Some((entry, before)) = entries.split_first() else {
        return false;
    };
    match entry {
        Entry::AtPrinter(_, sheet, Turn::Printed(Progress::Done)) => {
            sheet.job == job || is_done(before, job)
        }
        _ => is_done(before, job),
    }
}

/// All pages that were handed to printers, in order.
fn handed(alloc: Global, entries: &[Entry]) -> Result<Vec<Sheet>, AllocError>
    ensures { IfOk result (λ v. map sheet_seen v.items ≡ J.handed (history entries.now)) }
{
    let Some((entry, before)) = entries.split_first() else {
        return Ok(Vec::new(alloc));
    };
    let mut sheets = handed(alloc, before)?;
    if let Entry::AtPrinter(_, sheet, Turn::Handed) = entry {
        sheets.push(*sheet)?;
    }
    Ok(sheets)
}

/// Whether a page is of one of these jobs.
fn is_of_one(jobs: &[Opening], sheet: &Sheet) -> bool
    ensures { result ≡ J.is_of_one (map opening_seen jobs.now) (sheet_seen sheet.now) }
{
    let Some((first, rest)) = jobs.split_first() else {
        return false;
    };
    first.job == sheet.job || is_of_one(rest, sheet)
}

/// Puts those of these pages that are of one of these jobs behind those.
fn add_of_one(sheets: &mut Vec<Sheet>, jobs: &[Opening], handed: &[Sheet]) -> Result<(), AllocError>
    ensures { OnOk result (map sheet_seen sheets.new.items ≡ map sheet_seen sheets.old.items
        ++ filter (J.is_of_one (map opening_seen jobs.now)) (map sheet_seen handed.now)) }
{
    let Some((first, rest)) = handed.split_first() else {
        return Ok(());
    };
    if is_of_one(jobs, first) {
        sheets.push(*first)?;
    }
    add_of_one(sheets, jobs, rest)
}

/// Puts the first so many of these places of a job, the first of which has this number, behind these pages.
fn add_sheets(
    sheets: &mut Vec<Sheet>,
    job: u64,
    place: u64,
    count: u64,
    places: &[Page],
) -> Result<(), AllocError>
    requires { place + length places.now < 2 ^ 64 }
    ensures { OnOk result (map sheet_seen sheets.new.items ≡ map sheet_seen sheets.old.items
        ++ J.sheets job place (take count (map page_seen places.now))) }
{
    let Some((first, rest)) = places.split_first() else {
        return Ok(());
    };
    if count == 0 {
        return Ok(());
    }
    sheets.push(Sheet {
        job,
        place,
        file: first.file,
        number: first.number,
        page: first.page,
    })?;
    add_sheets(sheets, job, place + 1, count - 1, rest)
}

/// Puts the first places of each of these jobs, as many as were handed of it, behind these pages.
fn add_first_places(
    sheets: &mut Vec<Sheet>,
    alloc: Global,
    entries: &[Entry],
    jobs: &[Opening],
) -> Result<(), AllocError>
    ensures { OnOk result (map sheet_seen sheets.new.items ≡ map sheet_seen sheets.old.items
        ++ flat_map (J.first_places (history entries.now)) (map opening_seen jobs.now)) }
{
    let Some((first, rest)) = jobs.split_first() else {
        return Ok(());
    };
    let job = job_in(alloc, entries, first)?;
    let places = job.places(alloc)?;
    add_sheets(sheets, job.number, 0, job.handed, places.as_slice())?;
    add_first_places(sheets, alloc, entries, rest)
}

/// Whether these are the same pages in the same order.
fn are_same(some: &[Sheet], others: &[Sheet]) -> bool
    ensures { IsTrue result ↔ map sheet_seen some.now ≡ map sheet_seen others.now }
{
    let Some((first, rest)) = some.split_first() else {
        return others.is_empty();
    };
    let Some((other, left)) = others.split_first() else {
        return false;
    };
    is_same_sheet(first, other) && are_same(rest, left)
}

/// Whether one of these jobs has a lower number than this one and is held.
fn has_held_before(
    alloc: Global,
    entries: &[Entry],
    number: u64,
    jobs: &[Opening],
) -> Result<bool, AllocError>
    ensures { IfOk result (λ b. b
        ≡ list_any (is_held_before (history entries.now) number) (map opening_seen jobs.now)) }
{
    let Some((first, rest)) = jobs.split_first() else {
        return Ok(false);
    };
    let job = job_in(alloc, entries, first)?;
    if job.number < number && job.is_held() {
        return Ok(true);
    }
    has_held_before(alloc, entries, number, rest)
}

/// Whether as many pages of a job were handed as a join of these jobs allows: all places where it is done, and none where
/// it wasn't received or where an earlier one of the jobs is held.
fn may_leave(
    alloc: Global,
    entries: &[Entry],
    jobs: &[Opening],
    opening: &Opening,
) -> Result<bool, AllocError>
    ensures { IfOk result (λ b. IsTrue b
        ↔ MayLeave (history entries.now) (map opening_seen jobs.now) (opening_seen opening.now)) }
{
    let job = job_in(alloc, entries, opening)?;
    let places = job.places(alloc)?;
    if is_done(entries, opening.job) && job.handed != places.len() as u64 {
        return Ok(false);
    }
    if job.handed == 0 {
        return Ok(true);
    }
    Ok(job.is_received() && !has_held_before(alloc, entries, opening.job, jobs)?)
}

/// Whether as many pages of each of some jobs were handed as a join of these jobs allows.
fn all_may_leave(
    alloc: Global,
    entries: &[Entry],
    jobs: &[Opening],
    some: &[Opening],
) -> Result<bool, AllocError>
    ensures { IfOk result (λ b. IsTrue b
        ↔ AllByRecursion (MayLeave (history entries.now) (map opening_seen jobs.now))
        (map opening_seen some.now)) }
{
    let Some((first, rest)) = some.split_first() else {
        return Ok(true);
    };
    if !may_leave(alloc, entries, jobs, first)? {
        return Ok(false);
    }
    all_may_leave(alloc, entries, jobs, rest)
}

/// Whether what was handed of these jobs is the join of the first places of each, by rising number over them.
fn is_join(
    alloc: Global,
    entries: &[Entry],
    handed: &[Sheet],
    jobs: &[Opening],
) -> Result<bool, AllocError>
    requires { map sheet_seen handed.now ≡ J.handed (history entries.now) }
    ensures { IfOk result (λ b. IsTrue b
        ↔ J.IsJoin (history entries.now) (map opening_seen jobs.now)) }
{
    let numbers: Vec<u64> = jobs.iter().map(|opening| opening.job).collect(alloc)?;
    if !rises(numbers.as_slice()) {
        return Ok(false);
    }
    let mut left = Vec::new(alloc);
    add_of_one(&mut left, jobs, handed)?;
    let mut joined = Vec::new(alloc);
    add_first_places(&mut joined, alloc, entries, jobs)?;
    if !are_same(left.as_slice(), joined.as_slice()) {
        return Ok(false);
    }
    all_may_leave(alloc, entries, jobs, jobs)
}

/// Puts those of these jobs that are of a sender and a queue behind those.
fn add_of_line(
    jobs: &mut Vec<Opening>,
    opened: &[Opening],
    sender: u32,
    queue: u32,
) -> Result<(), AllocError>
    ensures { OnOk result (map opening_seen jobs.new.items ≡ map opening_seen jobs.old.items
        ++ of_line (map opening_seen opened.now) sender queue) }
{
    let Some((first, rest)) = opened.split_first() else {
        return Ok(());
    };
    if first.sender == sender && first.queue == queue {
        jobs.push(*first)?;
    }
    add_of_line(jobs, rest, sender, queue)
}

/// Whether for each of some jobs those opened jobs that are of its sender and queue leave joined.
fn all_join(
    alloc: Global,
    entries: &[Entry],
    handed: &[Sheet],
    opened: &[Opening],
    some: &[Opening],
) -> Result<bool, AllocError>
    requires { map sheet_seen handed.now ≡ J.handed (history entries.now) }
    ensures { IfOk result (λ b. IsTrue b
        ↔ AllByRecursion (LineIsJoin (history entries.now) (map opening_seen opened.now))
        (map opening_seen some.now)) }
{
    let Some((first, rest)) = some.split_first() else {
        return Ok(true);
    };
    let mut jobs = Vec::new(alloc);
    add_of_line(&mut jobs, opened, first.sender, first.queue)?;
    if !is_join(alloc, entries, handed, jobs.as_slice())? {
        return Ok(false);
    }
    all_join(alloc, entries, handed, opened, rest)
}

/// Whether what was handed of the accepted jobs of each sender and queue is the join, by rising number over them, of the
/// first places of each: all of a job that is done, and none of one that wasn't received or that stands behind a held one.
/// The newest entry stands first. Fails where memory is short.
pub fn leaves_joined(alloc: Global, entries: &[Entry]) -> Result<bool, AllocError>
    ensures { IfOk result (λ b. IsTrue b ↔ J.LeavesJoined (history entries.now)) }
{
    let opened = openings(alloc, entries)?;
    let handed = handed(alloc, entries)?;
    let opened = opened.as_slice();
    all_join(alloc, entries, handed.as_slice(), opened, opened)
}
