//! A folder in memory, which fails from some call on as one does whose machine has crashed.

ghost use Rattle.std.specs.Prelude.{◌≡◌, ◌<◌, ◌++◌, ◌&&◌, not, [], MatchOption, None, Some, OnOk, count_by, is_some, true, vec_capacity, vec_len};
ghost use Rattle.std.proofs.Common.{inl};
ghost use Rattle.kept_jobs.specs.Folder.{HasCause, octets_of};
ghost use Rattle.memory_folder.specs.Memory.{Lacks, LeftSince, MayHold, MayLeave, gone_with, is_let_out, left_of, moment_of, octets_in, only_left, passed_in};

use crate::file::{Crash, DiskFile};
use kept_jobs::{Folder, KeepError};
use std::alloc::{AllocError, Global};

/// What became of a whole file that was in hand.
#[derive(Clone, Copy, Debug, PartialEq, Eq)]
pub enum FileEnd {
    /// Its job was passed on, and has this number.
    Passed(u64),
    /// It was left.
    Left,
    /// It was taken away.
    Discarded,
}

/// A whole file that is in hand no more.
#[derive(Drop)]
pub struct GoneFile {
    /// What became of it.
    pub end: FileEnd,
    /// The file, as it was then.
    pub file: DiskFile,
}

impl GoneFile {
    /// Whether its job was passed on, or left.
    pub fn is_let_out(&self) -> bool
        ensures { result ≡ is_let_out self.now.end }
    {
        !matches!(self.end, FileEnd::Discarded)
    }
}

/// A folder in memory, as one session has it.
#[derive(Drop)]
pub struct MemoryFolder {
    alloc: Global,
    partial: Option<DiskFile>,
    whole: Option<DiskFile>,
    /// The whole files that were in hand before, the oldest first.
    gone: Vec<GoneFile>,
    /// How many more calls go well. After these each call fails, and what is in the folder stays.
    calls: u64,
    faults: u64,
    ghost room: { is_some whole ≡ true → vec_len gone < vec_capacity gone },
}

/// Fails where no call is left, or this one isn't possible.
fn step(calls: &mut u64, faults: &mut u64, possible: bool) -> Result<(), KeepError>
    ensures cause { HasCause faults.old faults.new result }
    ensures possible { OnOk result (possible ≡ true) }
{
    if possible && *calls > 0 {
        *calls -= 1;
        return Ok(());
    }
    match faults.checked_add(1) {
        Some(more) => {
            *faults = more;
            Err(KeepError::Failed)
        }
        None => Err(KeepError::Memory),
    }
}

/// Whether there is a temporary file, and no whole one.
fn is_ready(partial: &Option<DiskFile>, whole: &Option<DiskFile>) -> bool
    ensures { result ≡ (is_some partial.now && not (is_some whole.now)) }
{
    partial.is_some() && whole.is_none()
}

/// Puts octets behind those of a temporary file, which is made where there is none.
fn write(alloc: Global, partial: &mut Option<DiskFile>, octets: &[u8]) -> Result<(), AllocError>
    ensures { OnOk result (octets_in partial.new
        ≡ Some (octets_of (octets_in partial.old) ++ octets.now)) }
{
    match partial {
        Some(file) => file.octets.extend_from_slice(octets),
        None => {
            *partial = Some(DiskFile::new(Vec::from_slice(alloc, octets)?));
            Ok(())
        }
    }
}

impl MemoryFolder {
    /// An empty one, of which so many calls go well.
    pub fn new(alloc: Global, calls: u64) -> MemoryFolder
        ensures empty { (result.partial ≡ None) × (result.whole ≡ None)
            × (result.gone.items ≡ []) }
        ensures calls { result.calls ≡ calls }
    {
        MemoryFolder {
            alloc,
            partial: None,
            whole: None,
            gone: Vec::new(alloc),
            calls,
            faults: 0,
        }
    }

    /// What this crash leaves of the job in hand: the octets of its whole file, or no such file.
    pub fn left(&self, crash: Crash) -> Option<&[u8]>
        ensures left { MatchOption result (left_of crash self.now.whole ≡ None)
            (λ octets. left_of crash self.now.whole ≡ Some octets.now) }
        ensures allowed { MatchOption result (MayLeave self.now.whole None)
            (λ octets. MayLeave self.now.whole (Some octets.now)) }
    {
        match &self.whole {
            Some(file) => file.left(crash),
            None => None,
        }
    }

    /// The whole files that were in hand before, the oldest first.
    pub fn gone(&self) -> &[GoneFile]
        ensures { result.now ≡ self.now.gone.items }
    {
        self.gone.as_slice()
    }

    /// How many jobs were passed on or left.
    pub fn let_out(&self) -> usize
        ensures { result ≡ count_by (λ gone. is_let_out gone.end) self.now.gone.items }
    {
        self.gone.iter().filter(|gone| gone.is_let_out()).count()
    }

    /// Nothing is in hand any more; a whole file that was came to this end.
    fn empty(&mut self, end: FileEnd)
        ensures nothing { (self.new.partial ≡ None) × (self.new.whole ≡ None) }
        ensures gone { self.new.gone.items ≡ gone_with end self.old.whole self.old.gone.items }
        ensures faults { self.new.faults ≡ self.old.faults }
    {
        self.partial = None;
        if let Some(file) = self.whole.take() {
            self.gone.push_reserved(GoneFile { end, file });
        }
    }
}

impl Folder for MemoryFolder {
    ghost use Rattle.kept_jobs.specs.Folder.{Seen};

    ghost seen = { λ m. Some (record {
      partial = octets_in m.partial;
      whole = octets_in m.whole;
      passed = passed_in m.gone.items;
    }) };

    ghost may_hold = { λ m octets. MayHold m.partial octets };

    ghost may_leave = { λ m c. MayLeave m.whole c };

    ghost moment = { λ m. moment_of m.gone.items m.whole };

    ghost left_since = { λ m t c. LeftSince m.gone.items m.whole t c };

    ghost may_lack = { λ m octets. Lacks m.gone.items octets };

    ghost faults = { λ m. m.faults };

    fn create(&mut self) -> Result<(), KeepError> {
        step(&mut self.calls, &mut self.faults, true)?;
        self.empty(FileEnd::Discarded);
        self.partial = Some(DiskFile::new(Vec::new(self.alloc)));
        Ok(())
    }

    fn append(&mut self, octets: &[u8], _digest: Option<[u8; 32]>) -> Result<(), KeepError> {
        step(&mut self.calls, &mut self.faults, true)?;
        write(self.alloc, &mut self.partial, octets)?;
        Ok(())
    }

    fn sync(&mut self) -> Result<(), KeepError> {
        step(&mut self.calls, &mut self.faults, true)?;
        if let Some(file) = &mut self.partial {
            file.synced = file.octets.len();
        }
        Ok(())
    }

    fn publish(&mut self) -> Result<(), KeepError> {
        let possible = is_ready(&self.partial, &self.whole);
        step(&mut self.calls, &mut self.faults, possible)?;
        self.gone.reserve(1)?;
        self.whole = self.partial.take();
        Ok(())
    }

    fn sync_names(&mut self) -> Result<(), KeepError> {
        step(&mut self.calls, &mut self.faults, true)?;
        if let Some(file) = &mut self.whole {
            file.named = true;
        }
        Ok(())
    }

    fn pass(&mut self, job: u64) {
        self.empty(FileEnd::Passed(job));
    }

    fn leave(&mut self) {
        self.empty(FileEnd::Left);
    }

    fn discard(&mut self) {
        match step(&mut self.calls, &mut self.faults, true) {
            Ok(()) | Err(KeepError::Memory) => self.empty(FileEnd::Discarded),
            Err(KeepError::Failed) => {}
        }
    }

    ghost counts_now = { λ m t c le now. inl (inl now) };

    ghost only_now = { λ m c left. only_left m.gone.items m.whole c left };
}
