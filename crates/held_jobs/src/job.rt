//! What is known of a held job beside its pages.

ghost use Rattle.std.specs.Prelude.{◌≡◌, ◌+◌, ◌<◌, ◌≤◌, ◌^◌, IfOk, length, map, option_copied};
ghost use Rattle.control_file.specs.View.{contents};
ghost use Rattle.lpd_values.specs.Kept.{is_among};
ghost use Rattle.lpd_values.specs.declared.limits.TheConstants.{MAX_FILES};
ghost use Rattle.held_jobs.specs.declared.file.DataFile.{DataFile};
ghost use Rattle.std.specs.List.{list_all};
ghost use Rattle.held_jobs.specs.Jobs.{new_facts, contents_of, has_prints, last_size};
ghost use Rattle.held_jobs.specs.Moves.{lent_facts, unlent_facts, begun_facts, put_facts, controlled_facts, received_facts, handed_facts, back_facts, ended_facts};

use crate::file::DataFile;
use crate::phase::Phase;
use crate::places::places_of;
use control_file::Control;
use lpd_values::{FileName, MAX_FILES};
use std::alloc::{AllocError, Global};
use std::marker::Model;
use told_jobs::ToldJob;

/// What is known of a held job: who sent it for which queue, how far it is, its data files and its control file, and how
/// many pages were lent, handed to printers and brought back. Its pages are the book's.
#[derive(Drop)]
pub struct Job {
    number: u64,
    sender: u32,
    queue: u32,
    phase: Phase,
    granted: u32,
    lent: bool,
    files: Vec<DataFile>,
    control: Option<Control>,
    handed: u64,
    back: u64,
}

impl Model for Job {
    ghost use Rattle.lpd_values.specs.declared.limits.TheConstants.{MAX_FILES};
    ghost use Rattle.std.specs.Prelude.{◌≤◌, vec_capacity, vec_len};
    ghost use Rattle.held_jobs.specs.Jobs.{Facts, contents_of};

    ghost Value = { Facts };

    ghost view = { λ j. record {
      number = j.number;
      sender = j.sender;
      queue = j.queue;
      phase = j.phase;
      granted = j.granted;
      lent = j.lent;
      files = j.files.items;
      control = contents_of j.control;
      handed = j.handed;
      back = j.back;
    } };

    ghost invariant = { λ j. (MAX_FILES ≤ vec_capacity j.files)
        × (vec_len j.files ≤ MAX_FILES) };
}

impl Job {
    /// A job that was just accepted, with room for `MAX_FILES` files.
    ///
    /// AllocError where memory for them is refused.
    pub fn new(alloc: Global, number: u64, sender: u32, queue: u32) -> Result<Job, AllocError>
        ensures { IfOk result (λ j. j ≡ new_facts number sender queue) }
    {
        Ok(Job {
            number,
            sender,
            queue,
            phase: Phase::Receiving,
            granted: 0,
            lent: false,
            files: Vec::with_capacity(alloc, MAX_FILES)?,
            control: None,
            handed: 0,
            back: 0,
        })
    }

    /// Its number of acceptance.
    pub fn number(&self) -> u64
        ensures { result ≡ self.now.number }
    {
        self.number
    }

    /// Its sender.
    pub fn sender(&self) -> u32
        ensures { result ≡ self.now.sender }
    {
        self.sender
    }

    /// The number of its queue.
    pub fn queue(&self) -> u32
        ensures { result ≡ self.now.queue }
    {
        self.queue
    }

    /// How far it is.
    pub fn phase(&self) -> Phase
        ensures { result ≡ self.now.phase }
    {
        self.phase
    }

    /// How many pages were lent to it so far.
    pub fn granted(&self) -> u32
        ensures { result ≡ self.now.granted }
    {
        self.granted
    }

    /// Whether a page is lent to it.
    pub fn is_lent(&self) -> bool
        ensures { result ≡ self.now.lent }
    {
        self.lent
    }

    /// Its data files, in order of beginning.
    pub fn files(&self) -> &[DataFile]
        ensures { result.now ≡ self.now.files }
    {
        self.files.as_slice()
    }

    /// Its control file, if that came.
    pub fn control(&self) -> Option<&Control>
        ensures { self.now.control ≡ contents_of (option_copied result) }
    {
        self.control.as_ref()
    }

    /// How many of its places were handed to a printer.
    pub fn handed(&self) -> u64
        ensures { result ≡ self.now.handed }
    {
        self.handed
    }

    /// How many of its places came back from a printer.
    pub fn back(&self) -> u64
        ensures { result ≡ self.now.back }
    {
        self.back
    }

    /// How many octets of its last file are still to come; 0 where it has no file.
    pub fn left(&self) -> u64
        ensures { result ≡ (last_size self.now.files).left }
    {
        if self.files.is_empty() {
            return 0;
        }
        self.files[self.files.len() - 1].left
    }

    /// Whether a file of it has this name.
    pub fn has_file(&self, name: &FileName) -> bool
        ensures { result ≡ is_among name.now (map (λ (f : DataFile). f.name) self.now.files) }
    {
        has_name(self.files.as_slice(), name)
    }

    /// Whether its control file came, and each data file that this prints has begun.
    pub fn has_prints(&self) -> bool
        ensures { result ≡ has_prints self.now }
    {
        match &self.control {
            Some(control) => has_names(self.files.as_slice(), control.prints.as_slice()),
            None => false,
        }
    }

    /// A page was lent to it.
    pub fn lend(&mut self)
        requires { self.old.granted + 1 < 2 ^ 32 }
        ensures { self.new ≡ lent_facts self.old }
    {
        self.granted += 1;
        self.lent = true;
    }

    /// The page that was lent to it came back.
    pub fn unlend(&mut self)
        ensures { self.new ≡ unlent_facts self.old }
    {
        self.lent = false;
    }

    /// A data file began.
    pub fn begin(&mut self, name: FileName, count: u64)
        requires { length self.old.files < MAX_FILES }
        ensures { self.new ≡ begun_facts name count self.old }
    {
        self.files
            .push(DataFile {
                name,
                count,
                left: count,
                pages: 0,
            })
            .unwrap();
    }

    /// A page with so many octets came for its last file.
    pub fn put(&mut self, len: u64)
        requires some { 0 < length self.old.files }
        requires fits { len ≤ (last_size self.old.files).left }
        requires few { (last_size self.old.files).pages + 1 < 2 ^ 64 }
        ensures { self.new ≡ put_facts len self.old }
    {
        let last = self.files.len() - 1;
        let file = &mut self.files[last];
        file.left -= len;
        file.pages += 1;
        self.lent = false;
    }

    /// Its control file came.
    pub fn set_control(&mut self, control: Control)
        ensures { self.new ≡ controlled_facts (contents control) self.old }
    {
        self.control = Some(control);
    }

    /// It is received.
    pub fn receive(&mut self)
        ensures { self.new ≡ received_facts self.old }
    {
        self.phase = Phase::Received;
    }

    /// Its next place was handed to a printer.
    pub fn hand(&mut self)
        requires { self.old.handed + 1 < 2 ^ 64 }
        ensures { self.new ≡ handed_facts self.old }
    {
        self.handed += 1;
    }

    /// A page of it came back from a printer.
    pub fn come_back(&mut self)
        requires { self.old.back + 1 < 2 ^ 64 }
        ensures { self.new ≡ back_facts self.old }
    {
        self.back += 1;
    }

    /// It has ended.
    pub fn end(&mut self)
        ensures { self.new ≡ ended_facts self.old }
    {
        self.phase = Phase::Ended;
    }
}

impl ToldJob for Job {
    ghost use Rattle.held_jobs.specs.Told.{told_in};

    type File = DataFile;

    ghost told = { told_in };

    fn is_listed(&self, queue: u32) -> bool {
        self.queue == queue && self.phase == Phase::Received
    }

    fn control(&self) -> Option<&Control> {
        self.control.as_ref()
    }

    fn files(&self) -> &[DataFile] {
        self.files.as_slice()
    }

    fn handed(&self) -> u64 {
        self.handed
    }

    fn left(&self, _alloc: Global) -> Result<u128, AllocError> {
        let Some(control) = &self.control else {
            return Ok(0);
        };
        let places = places_of(control.prints.as_slice(), self.files.as_slice());
        Ok(places.saturating_sub(u128::from(self.handed)))
    }
}

/// Whether one of these files has this name.
fn has_name(files: &[DataFile], name: &FileName) -> bool
    ensures { result ≡ is_among name.now (map (λ (f : DataFile). f.name) files.now) }
{
    let Some((first, rest)) = files.split_first() else {
        return false;
    };
    first.name.octets() == name.octets() || has_name(rest, name)
}

/// Whether files of all these names are there.
fn has_names(files: &[DataFile], names: &[FileName]) -> bool
    ensures { result
        ≡ list_all (λ name. is_among name (map (λ (f : DataFile). f.name) files.now)) names.now }
{
    let Some((first, rest)) = names.split_first() else {
        return true;
    };
    has_name(files, first) && has_names(files, rest)
}
