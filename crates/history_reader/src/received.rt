//! Whether a job is received or held, and its places in print order.

ghost use Rattle.std.specs.Prelude.{◌≡◌, ◌==◌, ◌<◌, ◌+◌, ◌^◌, ◌++◌, IfOk, OnOk, drop, length, map};
ghost use Rattle.std.specs.List.{flat_map, list_all, list_any};
ghost use Rattle.lpd_values.specs.Kept.{is_among};
ghost use Rattle.spool_history.specs.Acts as A;
ghost use Rattle.spool_history.specs.Now as N;
ghost use Rattle.history_reader.specs.Seen.{file_seen, job_seen, page_seen};

use crate::state::{File, Job, Page};
use account::Outline;
use lpd_values::FileName;
use std::alloc::{AllocError, Global};

/// Whether a file has not ended.
pub fn is_open_in(files: &[File]) -> bool
    ensures { result ≡ A.is_open_in (map file_seen files.now) }
{
    let Some((first, rest)) = files.split_first() else {
        return false;
    };
    !first.ended || is_open_in(rest)
}

/// Whether a file of this name began.
pub fn is_begun(name: &FileName, files: &[File]) -> bool
    ensures { result ≡ is_among name.now (A.names_in (map file_seen files.now)) }
{
    let Some((first, rest)) = files.split_first() else {
        return false;
    };
    first.name == *name || is_begun(name, rest)
}

/// Whether a file of each of these names began.
pub fn all_begun(names: &[FileName], files: &[File]) -> bool
    ensures { result
        ≡ list_all (λ name. is_among name (A.names_in (map file_seen files.now))) names.now }
{
    names.iter().all(|name| is_begun(name, files))
}

/// Puts the pages of a file behind these places, where the first of them has this number.
fn add_numbered(
    places: &mut Vec<Page>,
    file: u64,
    number: u64,
    pages: &[Outline],
) -> Result<(), AllocError>
    requires { number + length pages.now < 2 ^ 64 }
    ensures { OnOk result (map page_seen places.new.items ≡ map page_seen places.old.items
        ++ A.numbered file number pages.now) }
{
    let Some((first, rest)) = pages.split_first() else {
        return Ok(());
    };
    places.push(Page {
        file,
        number,
        page: *first,
    })?;
    add_numbered(places, file, number + 1, rest)
}

/// Puts the pages of the files of a name behind these places, where the first of the files has this number.
fn add_named(
    places: &mut Vec<Page>,
    name: &FileName,
    number: u64,
    files: &[File],
) -> Result<(), AllocError>
    requires { number + length files.now < 2 ^ 64 }
    ensures { OnOk result (map page_seen places.new.items ≡ map page_seen places.old.items
        ++ A.pages_named name.now number (map file_seen files.now)) }
{
    let Some((first, rest)) = files.split_first() else {
        return Ok(());
    };
    if first.name == *name {
        add_numbered(places, number, 0, first.pages.as_slice())?;
    }
    add_named(places, name, number + 1, rest)
}

/// Puts the pages of each of these names behind these places.
fn add_places(places: &mut Vec<Page>, names: &[FileName], files: &[File]) -> Result<(), AllocError>
    ensures { OnOk result (map page_seen places.new.items ≡ map page_seen places.old.items
        ++ flat_map (λ name. A.pages_named name 0 (map file_seen files.now)) names.now) }
{
    let Some((first, rest)) = names.split_first() else {
        return Ok(());
    };
    add_named(places, first, 0, files)?;
    add_places(places, rest, files)
}

/// Puts the pages of these files behind those, each once, where the first of the files has this number.
fn add_all(pages: &mut Vec<Page>, number: u64, files: &[File]) -> Result<(), AllocError>
    requires { number + length files.now < 2 ^ 64 }
    ensures { OnOk result (map page_seen pages.new.items
        ≡ map page_seen pages.old.items ++ A.all_pages number (map file_seen files.now)) }
{
    let Some((first, rest)) = files.split_first() else {
        return Ok(());
    };
    add_numbered(pages, number, 0, first.pages.as_slice())?;
    add_all(pages, number + 1, rest)
}

/// Whether one of these places is a place of this page.
fn has_place(page: &Page, places: &[Page]) -> bool
    ensures { result ≡ list_any (A.is_same_page (page_seen page.now)) (map page_seen places.now) }
{
    let Some((first, rest)) = places.split_first() else {
        return false;
    };
    (page.file == first.file && page.number == first.number) || has_place(page, rest)
}

/// Puts those of these pages behind those of which a place is among these places.
fn add_kept(kept: &mut Vec<Page>, places: &[Page], pages: &[Page]) -> Result<(), AllocError>
    ensures { OnOk result (map page_seen kept.new.items
        ≡ map page_seen kept.old.items
        ++ A.pages_among (map page_seen places.now) (map page_seen pages.now)) }
{
    let Some((first, rest)) = pages.split_first() else {
        return Ok(());
    };
    if has_place(first, places) {
        kept.push(*first)?;
    }
    add_kept(kept, places, rest)
}

/// What stands behind so many places.
fn behind(places: &[Page], back: u64) -> &[Page]
    ensures { map page_seen result.now ≡ drop back (map page_seen places.now) }
{
    let Some((_, rest)) = places.split_first() else {
        return places;
    };
    if back == 0 {
        return places;
    }
    behind(rest, back - 1)
}

impl Job {
    /// Whether its control file is there, each file that it prints has ended, and none is open.
    pub fn is_received(&self) -> bool
        ensures { result ≡ N.is_received (job_seen self.now) }
    {
        let files = self.files.as_slice();
        match &self.control {
            None => false,
            Some(control) => !is_open_in(files) && all_begun(control.prints.as_slice(), files),
        }
    }

    /// Whether a page of it is lent to its session, or at a printer.
    pub fn has_page_out(&self) -> bool
        ensures { result ≡ N.has_page_out (job_seen self.now) }
    {
        self.lent || self.handed != self.back
    }

    /// Whether it has not ended, or a page of it is out.
    pub fn is_held(&self) -> bool
        ensures { result ≡ N.is_held (job_seen self.now) }
    {
        !self.ended || self.has_page_out()
    }

    /// Its places, in print order.
    pub fn places(&self, alloc: Global) -> Result<Vec<Page>, AllocError>
        ensures { IfOk result (λ v. map page_seen v.items ≡ N.places (job_seen self.now)) }
    {
        let mut places = Vec::new(alloc);
        if let Some(control) = &self.control {
            add_places(
                &mut places,
                control.prints.as_slice(),
                self.files.as_slice(),
            )?;
        }
        Ok(places)
    }

    /// Its pages of which some place hasn't come back, each once. Fails where memory is short.
    pub fn pages_kept(&self, alloc: Global) -> Result<Vec<Page>, AllocError>
        ensures { IfOk result (λ v. map page_seen v.items ≡ N.pages_kept (job_seen self.now)) }
    {
        let places = self.places(alloc)?;
        let left = behind(places.as_slice(), self.back);
        let mut pages = Vec::new(alloc);
        add_all(&mut pages, 0, self.files.as_slice())?;
        let mut kept = Vec::new(alloc);
        add_kept(&mut kept, left, pages.as_slice())?;
        Ok(kept)
    }
}
