//! What is known of the job that is coming.

ghost use Rattle.std.specs.Prelude.{◌≡◌, ◌<◌, ◌⊎◌, ℕ, List, IfErr, None, OnOk, Some, length};
ghost use Rattle.std.specs.List.{list_all};
ghost use Rattle.lpd_values.specs.Kept.{is_among};
ghost use Rattle.control_file.specs.View.{contents};
ghost use Rattle.job_streams.specs.Stream.{Coming, IsFitControl, Part, is_whole};
ghost use Rattle.job_streams.specs.Coming.{new_job, with_control, with_end, with_file, with_octets};
ghost use Rattle.kept_jobs.specs.declared.folder.KeepError.TheVariants.{Memory};
ghost use Rattle.job_hand.specs.Known.{Knows};
ghost use Rattle.job_hand.specs.declared.cause.Cause.TheVariants.{Folder, Unfit};

use crate::cause::Cause;
use control_file::Control;
use lpd_values::{FileName, FileNames};
use std::alloc::{AllocError, Global};

/// The data file that is coming.
#[derive(Clone, Copy)]
pub struct KnownPart {
    /// Its name.
    pub name: FileName,
    /// How many octets it lacks.
    pub left: u64,
}

/// What is known of a job: of its octets it knows only how many are to come.
#[derive(Drop)]
pub struct Known {
    /// The names of the data files that have come, in order.
    pub names: FileNames,
    /// The names that its control file prints, once that has come.
    pub prints: Option<FileNames>,
    /// The data file that is coming.
    pub part: Option<KnownPart>,
}

/// One more than the greatest length of a file whose line is read back.
const MANY: u64 = 10_000_000_000_000_000_000;

/// Whether all that is printed is among these names.
fn has_all(names: &FileNames, prints: &FileNames) -> bool
    ensures { result ≡ list_all (λ name. is_among name names.now) prints.now }
{
    prints.as_slice().iter().all(|name| names.contains(name))
}

impl Known {
    /// Of a job of which nothing has come.
    pub fn new(alloc: Global) -> Known
        ensures { (sender : ℕ) (queue : List ℕ) → Knows result (new_job sender queue) }
    {
        Known {
            names: FileNames::new(alloc),
            prints: None,
            part: None,
        }
    }

    /// A data file begins. `Unfit` where it can't be kept.
    pub fn begin_file(&mut self, name: FileName, count: u64) -> Result<(), Cause>
        requires { 0 < count }
        ensures knows { OnOk result ((job : Coming) → Knows self.old job
            → Knows self.new (with_file name count job)) }
        ensures closed { OnOk result ((job : Coming) → Knows self.old job → job.part ≡ None) }
        ensures cause { IfErr result (λ cause. cause ≡ Unfit) }
    {
        if self.part.is_some() || name.is_control() || count >= MANY {
            return Err(Cause::Unfit);
        }
        self.part = Some(KnownPart { name, left: count });
        Ok(())
    }

    /// So many octets of it come. `Unfit` where they are too many.
    pub fn put(&mut self, count: u64) -> Result<(), Cause>
        ensures knows { OnOk result ((octets : List ℕ) → length octets ≡ count → (job : Coming)
            → Knows self.old job → Knows self.new (with_octets octets job)) }
        ensures coming { OnOk result ((job : Coming) → Knows self.old job
            → (file : Part) × (job.part ≡ Some file)) }
        ensures cause { IfErr result (λ cause. cause ≡ Unfit) }
    {
        let Some(part) = self.part else {
            return Err(Cause::Unfit);
        };
        let Some(left) = part.left.checked_sub(count) else {
            return Err(Cause::Unfit);
        };
        self.part = Some(KnownPart {
            name: part.name,
            left,
        });
        Ok(())
    }

    /// It has come whole. `Unfit` where it lacks octets, or memory is refused.
    pub fn end_file(&mut self) -> Result<(), Cause>
        ensures knows { OnOk result ((job : Coming) → Knows self.old job
            → Knows self.new (with_end job)) }
        ensures whole { OnOk result ((job : Coming) → Knows self.old job
            → (file : Part) × (job.part ≡ Some file) × (file.count ≡ length file.octets)) }
        ensures cause { IfErr result (λ cause. (cause ≡ Unfit) ⊎ (cause ≡ Folder Memory)) }
    {
        let Some(part) = self.part else {
            return Err(Cause::Unfit);
        };
        if part.left != 0 {
            return Err(Cause::Unfit);
        }
        self.names.push(part.name)?;
        self.part = None;
        Ok(())
    }

    /// The control file has come. `Unfit` where a data file is coming, or memory is refused.
    pub fn control(&mut self, alloc: Global, control: &Control) -> Result<(), Cause>
        ensures knows { OnOk result (IsFitControl (contents control.now) → (job : Coming)
            → Knows self.old job → Knows self.new (with_control (contents control.now) job)) }
        ensures closed { OnOk result ((job : Coming) → Knows self.old job → job.part ≡ None) }
        ensures cause { IfErr result (λ cause. (cause ≡ Unfit) ⊎ (cause ≡ Folder Memory)) }
    {
        if self.part.is_some() {
            return Err(Cause::Unfit);
        }
        self.prints = Some(control.prints.copy(alloc)?);
        Ok(())
    }

    /// Whether the job is whole: its control file is there, each file that it prints has come, and none
    /// is coming.
    pub fn is_whole(&self) -> bool
        ensures { (job : Coming) → Knows self.now job → result ≡ is_whole job }
    {
        if self.part.is_some() {
            return false;
        }
        match &self.prints {
            None => false,
            Some(prints) => has_all(&self.names, prints),
        }
    }
}
