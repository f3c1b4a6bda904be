//! A job that comes beside the spool.

ghost use Rattle.std.specs.Prelude.{◌≡◌, ◌<◌, ◌↔◌, IsTrue, MatchOption, OnErr, true, false, if◌then◌else◌};
ghost use Rattle.std.specs.List.{list_all};
ghost use Rattle.lpd_values.specs.Kept.{is_among};
ghost use Rattle.control_file.specs.View.{contents};
ghost use Rattle.spool_history.specs.Legal.{pages_for};

use control_file::Control;
use lpd_values::{FileName, FileNames, MAX_FILES, Refusal};
use spool_calls::Receipt;
use std::alloc::Global;

/// A job that comes beside the spool, as a spool would know it that has this one job.
#[derive(Drop)]
pub struct LoneJob {
    /// The names of its data files, in order of beginning.
    names: FileNames,
    /// The names that its control file prints, once that has come.
    prints: Option<FileNames>,
    /// How many octets its data files have together.
    octets: u64,
    /// How many pages they have together, each beginning on a page of its own.
    pages: u32,
    /// How many pages they may have.
    limit: u32,
    /// How many octets fit on a page.
    page_size: u32,
    /// Whether a data file is coming.
    is_open: bool,
    /// Whether a page is lent to it.
    is_lent: bool,
    ghost page_fits: { 0 < page_size },
}

/// How many pages of so many octets a file of this length takes.
fn pages_for(page_size: u32, count: u64) -> u128
    requires { 0 < page_size }
    ensures { result ≡ pages_for page_size count }
{
    (u128::from(count) + u128::from(page_size - 1)) / u128::from(page_size)
}

/// Whether each name that is printed is that of a file.
fn has_prints(names: &FileNames, prints: &FileNames) -> bool
    ensures { result ≡ list_all (λ name. is_among name names.now) prints.now }
{
    prints.as_slice().iter().all(|name| names.contains(name))
}

impl LoneJob {
    ghost use Rattle.parked_requests.specs.Lone.{BeginsFile, IsNew, TakesControl, TakesFile, RefusesFile};
    ghost use Rattle.parked_requests.specs.Lone.{is_whole, may_lend, pages_with, receipt_of};
    ghost use Rattle.parked_requests.specs.Lone.{with_begun, with_end, with_page, with_size};

    /// A job of which nothing has come, which may have `limit` pages of `page_size` octets each.
    pub fn new(alloc: Global, limit: u32, page_size: u32) -> LoneJob
        requires { 0 < page_size }
        ensures { IsNew limit page_size result }
    {
        LoneJob {
            names: FileNames::new(alloc),
            prints: None,
            octets: 0,
            pages: 0,
            limit,
            page_size,
            is_open: false,
            is_lent: false,
        }
    }

    /// How many pages its files have together with one more of so many octets.
    fn pages_with(&self, count: u64) -> u128
        ensures { result ≡ pages_with self.now count }
    {
        u128::from(self.pages) + pages_for(self.page_size, count)
    }

    /// Why a data file of this name, of so many octets, would be refused; None where it may begin.
    fn refusal(&self, name: &FileName, count: u64) -> Option<Refusal>
        ensures { MatchOption result (TakesFile self.now name.now count)
            (RefusesFile self.now name.now count) }
    {
        if self.is_open {
            return Some(Refusal::FileOpen);
        }
        if self.names.contains(name) {
            return Some(Refusal::NameTaken);
        }
        if self.names.len() >= MAX_FILES {
            return Some(Refusal::FilesFull);
        }
        if u128::from(self.limit) < self.pages_with(count) {
            return Some(Refusal::OverClaim);
        }
        None
    }

    /// A data file has begun, of so many octets. What is beyond the types' ranges is told as their greatest numbers.
    fn count_file(&mut self, count: u64)
        ensures { self.new ≡ with_size count self.old }
    {
        self.pages = self.pages_with(count).min(u128::from(u32::MAX)) as u32;
        self.octets = self.octets.saturating_add(count);
        self.is_open = true;
    }

    /// Begins a data file, of so many octets. Refused in the order in which a spool refuses it, and then nothing changes:
    ///
    /// FileOpen while a file is open; NameTaken where it has a file of this name; FilesFull where it has as many files as it may
    /// have; OverClaim where it would have more pages than it may, each file beginning on a page of its own; Memory where
    /// the name can't be kept.
    pub fn begin_file(&mut self, name: FileName, count: u64) -> Result<(), Refusal>
        ensures { BeginsFile self.old name count result self.new }
    {
        if let Some(refusal) = self.refusal(&name, count) {
            return Err(refusal);
        }
        if self.names.push(name).is_err() {
            return Err(Refusal::Memory);
        }
        self.count_file(count);
        Ok(())
    }

    /// A data file has begun of a job that the spool has: it is counted. Answers whether its name is known from now on, for which
    /// memory may be refused.
    pub(crate) fn follow_file(&mut self, name: FileName, count: u64) -> bool
        ensures { self.new ≡ with_begun result name count self.old }
    {
        self.count_file(count);
        self.names.push(name).is_ok()
    }

    /// Whether a data file is open and no page is lent: one may be lent, or the file may end.
    pub fn can_lend(&self) -> bool
        ensures { result ≡ may_lend self.now }
    {
        self.is_open && !self.is_lent
    }

    /// Lends a page, unless no file is open or one is lent already. Answers whether it is lent by this.
    pub fn lend(&mut self) -> bool
        ensures lends { result ≡ may_lend self.old }
        ensures job { self.new ≡ (if result then with_page true self.old else self.old) }
    {
        if !self.can_lend() {
            return false;
        }
        self.is_lent = true;
        true
    }

    /// The page that was lent comes back.
    pub fn put(&mut self)
        ensures { self.new ≡ with_page false self.old }
    {
        self.is_lent = false;
    }

    /// Whether a page is lent.
    pub fn is_lent(&self) -> bool
        ensures { result ≡ self.now.is_lent }
    {
        self.is_lent
    }

    /// Ends the open data file, and says whether the job is whole by that.
    pub fn end_file(&mut self) -> Receipt
        ensures job { self.new ≡ with_end self.old }
        ensures receipt { result ≡ receipt_of self.new }
    {
        self.is_open = false;
        self.receipt()
    }

    /// Takes the control file, and says whether the job is whole by that. ControlTwice where it has one; Memory where the names
    /// that it prints can't be kept. Nothing changes then.
    pub fn control(&mut self, alloc: Global, control: &Control) -> Result<Receipt, Refusal>
        ensures takes { TakesControl self.old (contents control.now).prints result self.new }
        ensures refused { OnErr result (self.new ≡ self.old) }
    {
        if self.prints.is_some() {
            return Err(Refusal::ControlTwice);
        }
        match control.prints.copy(alloc) {
            Ok(prints) => self.prints = Some(prints),
            Err(_) => return Err(Refusal::Memory),
        }
        Ok(self.receipt())
    }

    /// Whether the job is whole.
    fn receipt(&self) -> Receipt
        ensures { result ≡ receipt_of self.now }
    {
        if self.is_whole() {
            Receipt::Received
        } else {
            Receipt::Stored
        }
    }

    /// Whether its control file is there, each data file that it prints has come, and none is coming.
    fn is_whole(&self) -> bool
        ensures { result ≡ is_whole self.now }
    {
        if self.is_open {
            return false;
        }
        match &self.prints {
            None => false,
            Some(prints) => has_prints(&self.names, prints),
        }
    }

    /// How many octets its data files have together.
    pub fn octets(&self) -> u64
        ensures { result ≡ self.now.octets }
    {
        self.octets
    }

    /// How many pages they have together, each file beginning on a page of its own.
    pub fn pages(&self) -> u32
        ensures { result ≡ self.now.pages }
    {
        self.pages
    }
}
